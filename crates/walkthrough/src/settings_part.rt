// Settings as bytes: encoded, damaged, decoded.
use encodings::encoding::Encoding;
use settings::lens_correction::LensCorrection;
use settings::lens_correction::fields::LensFields;
use settings::setting::Setting;
use settings::shelf_mark::ShelfMark;

/// The fields of a lens correction that was measured.
pub(crate) const MEASURED: LensFields = LensFields {
    band: 12,
    k1: -120_000_000,
    k2: 3_500_000,
    k3: 0,
    p1: 40_000,
    p2: -25_000,
    centre_x: 1_500,
    centre_y: -750,
};

/// The bytes with the byte at a place replaced.
fn damaged(mut bytes: Encoding, place: usize, byte: u8) -> Encoding {
    if let Some(damaged) = bytes.get_mut(place) {
        *damaged = byte;
    }
    bytes
}

fn walk_lens(rt: &impl Print) -> anyhow::Result<()> {
    let lens = LensCorrection::try_from(MEASURED)?;
    let bytes = lens.encode();
    println!(rt; "lens correction: band {} is its fourth byte", bytes[3])?;
    let back = LensCorrection::decode(bytes);
    println!(rt;
        "decoded: band {}, k1 {} billionths, centre y {} thousandths",
        back.band(),
        back.k1(),
        back.centre_y()
    )?;
    let past = damaged(bytes, 3, 64);
    let passes = LensCorrection::is_encoding(past);
    let back = LensCorrection::decode(past);
    println!(rt;
        "with band 64: an encoding? {passes}; decoded: band {}, k1 {}, the identity",
        back.band(),
        back.k1()
    )?;
    Ok(())
}

fn walk_mark(rt: &impl Print) -> anyhow::Result<()> {
    let mark = ShelfMark::try_from(b"P.Oxy.4443".as_slice())?;
    println!(rt; "shelf mark: {mark}")?;
    let bytes = mark.encode();
    let other = damaged(bytes, 9, 0x34);
    let read = ShelfMark::decode(other);
    println!(rt; "with another tenth byte: {read}")?;
    let gap = damaged(bytes, 4, 0);
    let passes = ShelfMark::is_encoding(gap);
    let read = ShelfMark::decode(gap);
    let initial = read == ShelfMark::initial();
    println!(rt;
        "with a zero inside: an encoding? {passes}; decoded: {read}; the initial one? {initial}"
    )?;
    Ok(())
}

pub(crate) fn walk(rt: &impl Print) -> anyhow::Result<()> {
    println!(rt; "-- settings and their bytes")?;
    walk_lens(rt)?;
    walk_mark(rt)
}
