// What a ledger does.
ghost use Rattle.std.specs.Prelude.{◌≡◌, ◌+◌, ◌^◌, ◌<◌, ◌≤◌, true, [], ◌∷◌, ◌++◌, length, IfOk, IfSome, None, vec_capacity};
ghost use Rattle.signatures.specs.Books.{Signs};
ghost use Rattle.signatures.specs.Orders.{rises, counts};
ghost use Rattle.signatures.specs.Ledgers.{ledger_book, ledger_capacity, ledger_free, slots_of};

use super::{Ledger, MOST_SLOTS};
use crate::book::{latest_of, may_sign, stands_at};
use crate::entry::Entry;
use crate::signatures::Signatures;
use encodings::encoding::Encoding;
use std::alloc::{AllocError, Global};

/// How many of the places of the memory are slots.
fn slots_of(capacity: usize) -> usize
    ensures { result ≡ slots_of capacity }
{
    capacity.min(MOST_SLOTS)
}

impl Ledger {
    /// An empty book in the memory that is handed in. What stood there is gone; the capacity are the slots.
    pub fn new(mut memory: Vec<Entry>) -> Ledger
        ensures book { ledger_book result ≡ [] }
        ensures capacity { ledger_capacity result ≡ vec_capacity memory }
        ensures free { ledger_free result ≡ slots_of (vec_capacity memory) }
    {
        memory.clear();
        Ledger { memory }
    }

    /// An empty book in new memory with room for so many entries, or an error where there is no memory.
    pub fn with_room(heap: Global, entries: usize) -> Result<Ledger, AllocError>
        ensures book { IfOk result (λ l. ledger_book l ≡ []) }
        ensures room { IfOk result (λ l. entries ≤ ledger_capacity l) }
    {
        let mut memory = Vec::new(heap);
        memory.reserve_exact(entries)?;
        Ok(Ledger::new(memory))
    }

    /// The memory, with the book's entries in it and with the capacity that it was handed in with.
    pub fn into_memory(self) -> Vec<Entry>
        ensures items { result.items ≡ ledger_book self }
        ensures capacity { vec_capacity result ≡ ledger_capacity self }
    {
        let Ledger { memory } = self;
        memory
    }

    /// The tag of the next entry: its place.
    fn next_tag(&self) -> u32
        requires { length (ledger_book self.now) < 2 ^ 32 }
        ensures { result ≡ length (ledger_book self.now) }
    {
        self.entries() as u32
    }

    /// Writes an entry into the first free slot.
    fn append(&mut self, entry: Entry)
        requires room { 0 < ledger_free self.old }
        requires newer { rises 0 (ledger_book self.old ++ (entry ∷ [])) ≡ true }
        requires counted { counts 0 (ledger_book self.old ++ (entry ∷ [])) ≡ true }
        ensures book { ledger_book self.new ≡ ledger_book self.old ++ (entry ∷ []) }
        ensures free { ledger_free self.new + 1 ≡ ledger_free self.old }
        ensures capacity { ledger_capacity self.new ≡ ledger_capacity self.old }
    {
        self.memory.push_reserved(entry);
    }
}

impl Signatures for Ledger {
    ghost book = { ledger_book };

    ghost free = { ledger_free };

    fn sign(&mut self, timestamp: u32, encoding: Encoding) -> Option<u32>
        ensures signs { Signs (ledger_book self.old) (ledger_free self.old) timestamp encoding result (ledger_book self.new) (ledger_free self.new) }
        ensures unchanged { result ≡ None → self.new ≡ self.old }
        ensures tag { IfSome result (λ t. t ≡ length (ledger_book self.old)) }
        ensures capacity { ledger_capacity self.new ≡ ledger_capacity self.old }
    {
        if !may_sign(self.latest(), self.free(), timestamp) {
            return None;
        }
        let tag = self.next_tag();
        self.append(Entry {
            timestamp,
            encoding,
            tag,
        });
        Some(tag)
    }

    fn verify(&self, timestamp: u32, encoding: Encoding, tag: u32) -> bool {
        stands_at(
            self.memory.as_slice(),
            tag as usize,
            timestamp,
            encoding,
            tag,
        )
    }

    fn entries(&self) -> usize {
        self.memory.len()
    }

    fn latest(&self) -> u32 {
        latest_of(&self.memory)
    }

    fn free(&self) -> usize {
        slots_of(self.memory.capacity()) - self.entries()
    }
}
