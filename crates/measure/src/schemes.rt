// The workloads of the signature schemes.
use crate::turns::sum_of;
use encodings::encoding::Encoding;
use signatures::inline_signer::{InlineSigner, SLOTS};
use signatures::ledger::Ledger;
use signatures::signatures::Signatures;
use std::alloc::{AllocError, Global};

/// How many entries a ledger can take besides those that it begins with.
const ROOM: usize = 8000;

/// Signs the encoding under the timestamps from 1 to `count`.
fn sign_all<K: Signatures>(signatures: &mut K, count: u32, encoding: Encoding) {
    for timestamp in 1..=count {
        let _ = signatures.sign(timestamp, encoding);
    }
}

/// A ledger with room that begins with so many entries of the encoding.
fn begun_ledger(heap: Global, entries: u32, encoding: Encoding) -> Result<Ledger, AllocError> {
    let mut ledger = Ledger::with_room(heap, entries as usize + ROOM)?;
    sign_all(&mut ledger, entries, encoding);
    Ok(ledger)
}

/// `sign` of the timestamps that follow, with the encoding.
pub(crate) fn sign(
    heap: Global,
    entries: u32,
    count: u32,
    encoding: Encoding,
) -> Result<u64, AllocError> {
    let mut ledger = begun_ledger(heap, entries, encoding)?;
    Ok(sum_of(count, |turn| {
        let timestamp = entries.wrapping_add(turn).wrapping_add(1);
        ledger.sign(timestamp, encoding).map_or(0, u64::from)
    }))
}

/// `verify` of the entries of a ledger, one after another and again.
pub(crate) fn verify(
    heap: Global,
    entries: u32,
    count: u32,
    encoding: Encoding,
) -> Result<u64, AllocError> {
    let ledger = begun_ledger(heap, entries, encoding)?;
    Ok(sum_of(count, |turn| {
        let tag = turn % entries.max(1);
        u64::from(ledger.verify(tag + 1, encoding, tag))
    }))
}

/// `verify` of the entries of an inline signer whose slots are all used, one after another and again.
pub(crate) fn verify_inline(count: u32, encoding: Encoding) -> u64 {
    let mut signer = InlineSigner::new(0);
    sign_all(&mut signer, SLOTS as u32, encoding);
    sum_of(count, |turn| {
        let timestamp = 1 + turn % SLOTS as u32;
        u64::from(signer.verify(timestamp, encoding, timestamp))
    })
}
