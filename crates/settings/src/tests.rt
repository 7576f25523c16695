// Every bound and its neighbour, and one example of each kind.
use crate::lens_correction::LensCorrection;
use crate::lens_correction::error::OutOfBounds;
use crate::lens_correction::fields::LensFields;
use crate::setting::Setting;
use crate::shelf_mark::ShelfMark;
use crate::shelf_mark::error::NoShelfMark;
use encodings::encoding::Encoding;
use std::process::Abort;
use std::test::Fail;

/// The first place, the place after the last, a word, and whether it may stand at those places.
const WORDS: [(usize, usize, u32, bool); 10] = [
    (0, 1, 63, true),
    (0, 1, 64, false),
    (1, 6, 0x3B9A_CA00, true),
    (1, 6, 0x3B9A_CA01, false),
    (1, 6, 0xC465_3600, true),
    (1, 6, 0xC465_35FF, false),
    (6, 8, 0x05F5_E100, true),
    (6, 8, 0x05F5_E101, false),
    (6, 8, 0xFA0A_1F00, true),
    (6, 8, 0xFA0A_1EFF, false),
];

/// Zeros but for one word.
fn with_word(place: usize, word: u32) -> Encoding {
    let mut words = [[0; 4]; 8];
    if place < 8 {
        words[place] = word.to_be_bytes();
    }
    let mut bytes = [0; 32];
    bytes.copy_from_slice(words.as_flattened());
    bytes
}

/// Bytes that pass are encoded as themselves, and others as those of the initial setting.
fn check_bytes<S: Setting>(rt: &impl Abort, bytes: Encoding, passes: bool) {
    assert!(rt; S::is_encoding(bytes) == passes);
    let expected = if passes { bytes } else { S::initial().encode() };
    assert!(rt; S::decode(bytes).encode() == expected);
}

#[test]
fn lens_bounds(rt: HostRuntime) {
    for (first, end, word, passes) in WORDS {
        for place in first..end {
            check_bytes::<LensCorrection>(&rt, with_word(place, word), passes);
        }
    }
}

/// The text and its padding are taken or refused alike.
fn check_text(rt: &impl Abort, text: &[u8], passes: bool) {
    let mut bytes = [0; 32];
    if text.len() <= 32 {
        bytes[..text.len()].copy_from_slice(text);
        check_bytes::<ShelfMark>(rt, bytes, passes);
    }
    assert!(rt; ShelfMark::try_from(text).is_ok() == passes);
}

#[test]
fn mark_bounds(rt: HostRuntime) {
    check_text(&rt, b"", false);
    check_text(&rt, b"\x20", false);
    check_text(&rt, b"\x21", true);
    check_text(&rt, b"\x7E", true);
    check_text(&rt, b"\x7F", false);
    check_text(&rt, b"A\0B", false);
    check_text(&rt, b"\0B", false);
    check_text(&rt, b"0123456789abcdef0123456789ABCDEF", true);
    check_text(&rt, b"0123456789abcdef0123456789ABCDE\x7F", false);
    check_text(&rt, b"0123456789abcdef0123456789ABCDEFG", false);
    assert!(rt; ShelfMark::try_from(b"A\0".as_slice()) == Err(NoShelfMark));
}

#[test]
fn examples(rt: HostRuntime) -> Result<(), Fail> {
    let fields = LensFields {
        band: 5,
        k1: -1,
        k2: 2,
        k3: -256,
        p1: 65536,
        p2: -1_000_000_000,
        centre_x: 1500,
        centre_y: -250,
    };
    let lens = LensCorrection::try_from(fields)?;
    assert!(rt;
        lens.encode()
            == *b"\0\0\0\x05\xFF\xFF\xFF\xFF\0\0\0\x02\xFF\xFF\xFF\0\0\x01\0\0\xC4\x65\x36\0\0\0\x05\xDC\xFF\xFF\xFF\x06"
    );
    let mark = ShelfMark::try_from(b"QC-417/b".as_slice())?;
    assert!(rt; mark.encode() == *b"QC-417/b\0\0\0\0\0\0\0\0\0\0\0\0\0\0\0\0\0\0\0\0\0\0\0\0");
    let shown = format!(in rt.alloc(); "{mark}")?;
    assert!(rt; shown.as_str() == "QC-417/b");
    let beyond = LensFields { band: 64, ..fields };
    assert!(rt; LensCorrection::try_from(beyond) == Err(OutOfBounds));
    let shown = format!(in rt.alloc(); "{}; {}", OutOfBounds, NoShelfMark)?;
    assert!(rt;
        shown.as_str()
            == "a field of the lens correction lies outside its bounds; a shelf mark is 1 to 32 visible characters"
    );
    Ok(())
}
