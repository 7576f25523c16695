// What the schemes answer on examples.
use crate::entry::Entry;
use crate::inline_signer::InlineSigner;
use crate::ledger::Ledger;
use crate::signatures::Signatures;
use encodings::encoding::{Encoding, blank};
use std::process::Abort;
use std::test::Fail;

/// An encoding that is blank but for its last byte.
fn ending(byte: u8) -> Encoding {
    let mut encoding = blank();
    encoding[31] = byte;
    encoding
}

/// Signs in order, and compares each tag, or refusal, and what is left.
fn signs<K: Signatures>(rt: &impl Abort, scheme: &mut K, cases: &[(u32, Option<u32>)]) {
    for &(timestamp, tag) in cases {
        let free = scheme.free();
        let entries = scheme.entries();
        assert_eq!(rt; scheme.sign(timestamp, ending(7)), tag);
        let used = usize::from(tag.is_some());
        assert_eq!(rt; scheme.entries(), entries.wrapping_add(used));
        assert_eq!(rt; scheme.free(), free.wrapping_sub(used));
    }
}

/// Asks a scheme about changed entries, one part at a time.
fn verifies<K: Signatures>(rt: &impl Abort, scheme: &K, timestamp: u32, tag: u32) {
    assert!(rt; scheme.verify(timestamp, ending(7), tag));
    assert!(rt; !scheme.verify(timestamp, ending(8), tag));
    assert!(rt; !scheme.verify(timestamp, ending(7), tag ^ 1));
    assert!(rt; !scheme.verify(timestamp, ending(7), tag ^ 0x8000_0000));
    assert!(rt; !scheme.verify(timestamp ^ 1, ending(7), tag));
    assert!(rt; !scheme.verify(0, blank(), 0));
}

/// Signs timestamps 1, 2, .. under tags 0, 1, .. while slots are free, and then no more.
fn fills<K: Signatures>(rt: &impl Abort, scheme: &mut K, slots: usize) {
    assert_eq!(rt; scheme.free(), slots);
    for tag in 0..100 {
        let fits = (tag as usize) < slots;
        assert_eq!(rt; scheme.sign(tag + 1, ending(7)), fits.then_some(tag));
        assert_eq!(rt; scheme.verify(tag + 1, ending(7), tag), fits);
    }
    assert_eq!(rt; scheme.free(), 0);
    assert_eq!(rt; scheme.entries(), slots);
}

#[test]
fn a_ledger_tags_by_place(rt: HostRuntime) -> Result<(), Fail> {
    let mut ledger = Ledger::new(Vec::with_capacity(rt.alloc(), 8)?);
    assert_eq!(rt; ledger.latest(), 0);
    let cases = [
        (0, None),
        (5, Some(0)),
        (5, None),
        (4, None),
        (0, None),
        (6, Some(1)),
        (4_294_967_295, Some(2)),
        (7, None),
    ];
    signs(&rt, &mut ledger, &cases);
    assert_eq!(rt; ledger.latest(), 4_294_967_295);
    verifies(&rt, &ledger, 5, 0);
    verifies(&rt, &ledger, 4_294_967_295, 2);
    Ok(())
}

#[test]
fn an_inline_signer_tags_by_timestamp(rt: HostRuntime) {
    let mut signer = InlineSigner::new(4_294_967_290);
    assert_eq!(rt; signer.latest(), 0);
    let cases = [
        (0, None),
        (5, Some(4_294_967_295)),
        (5, None),
        (6, Some(0)),
        (4, None),
        (0, None),
        (9, Some(3)),
        (4_294_967_295, Some(4_294_967_289)),
    ];
    signs(&rt, &mut signer, &cases);
    assert_eq!(rt; signer.latest(), 4_294_967_295);
    verifies(&rt, &signer, 5, 4_294_967_295);
    verifies(&rt, &signer, 6, 0);
    verifies(&rt, &signer, 4_294_967_295, 4_294_967_289);
}

#[test]
fn a_ledger_is_made_with_room(rt: HostRuntime) -> Result<(), Fail> {
    let mut ledger = Ledger::with_room(rt.alloc(), 3)?;
    assert_eq!(rt; ledger.entries(), 0);
    assert!(rt; ledger.free() >= 3);
    signs(
        &rt,
        &mut ledger,
        &[(5, Some(0)), (6, Some(1)), (7, Some(2))],
    );
    Ok(())
}

#[test]
fn a_full_book_refuses(rt: HostRuntime) -> Result<(), Fail> {
    fills(&rt, &mut InlineSigner::new(4_294_967_295), 64);
    fills(&rt, &mut Ledger::new(Vec::new(rt.alloc())), 0);
    let memory: Vec<Entry> = Vec::with_capacity(rt.alloc(), 3)?;
    let slots = memory.capacity();
    assert!(rt; slots < 100);
    let mut ledger = Ledger::new(memory);
    fills(&rt, &mut ledger, slots);
    let memory = ledger.into_memory();
    assert_eq!(rt; memory.capacity(), slots);
    assert_eq!(rt; memory.len(), slots);
    for (place, entry) in memory.iter().enumerate() {
        assert_eq!(rt; entry.timestamp as usize, place + 1);
        assert_eq!(rt; entry.tag as usize, place);
        assert_eq!(rt; entry.encoding, ending(7));
    }
    fills(&rt, &mut Ledger::new(memory), slots);
    Ok(())
}
