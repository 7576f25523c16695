// The scheme that writes into memory of its owner's.
ghost use Rattle.std.specs.Prelude.{◌≡◌, ◌^◌, ◌≤◌, true, vec_len};
ghost use Rattle.signatures.specs.Orders.{rises, counts};

use crate::entry::Entry;

pub mod scheme;

/// The most slots that a ledger uses, since a tag has 32 bits.
pub const MOST_SLOTS: usize = 4_294_967_296;

/// A scheme whose entries lie in memory that its owner hands in and gets back; an entry's tag is its place, from 0.
#[derive(Drop)]
pub struct Ledger {
    memory: Vec<Entry>,
    ghost within: { vec_len memory ≤ 2 ^ 32 },
    ghost rising: { rises 0 memory.items ≡ true },
    ghost counted: { counts 0 memory.items ≡ true },
}
