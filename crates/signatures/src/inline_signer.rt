// The scheme with slots of its own.
ghost use Rattle.std.specs.Prelude.{◌≡◌, ◌≤◌, true, length, take};
ghost use Rattle.signatures.specs.Orders.{rises};

use crate::entry::Entry;

pub mod scheme;

/// How many slots an inline signer has.
pub const SLOTS: usize = 64;

/// A scheme with 64 slots of its own; an entry's tag is its timestamp plus a start, modulo 2^32.
#[derive(Drop)]
pub struct InlineSigner {
    // No `ArrayVec`: with one, a signer that is made writes its slots several times over, and making a cluster takes 8.5 times the
    // twin's instructions; as it is, it takes fewer than the twin.
    slots: [Entry; SLOTS],
    used: usize,
    start: u32,
    ghost count: { length slots ≡ 64 },
    ghost within: { used ≤ 64 },
    ghost rising: { rises 0 (take used slots) ≡ true },
}
