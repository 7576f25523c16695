// Questions about a book whose timestamps rise, which the schemes share.
//
// `verify` looks at a book by hand: by the library's `get`, `binary_search_by_key` and a derived `==` it took 1.5 to 4 times the time.
ghost use Rattle.std.specs.Prelude.{◌≡◌, ℕ, ◌<◌, ◌≤◌, true, ◌&&◌, [], ◌∷◌, length, get_or, take, drop, nat_lt, slice_index_or};
ghost use Rattle.signatures.specs.Books.{signed, newest};
ghost use Rattle.signatures.specs.Orders.{no_entry, rises};

use crate::entry::Entry;
use encodings::encoding::{Encoding, blank, same};
use encodings::rows::row_or;

/// Whether a timestamp can be signed, where `latest` is the greatest signed one, or 0.
pub(crate) fn may_sign(latest: u32, free: usize, timestamp: u32) -> bool
    ensures { result ≡ (nat_lt latest timestamp && nat_lt 0 free) }
{
    latest < timestamp && 0 < free
}

/// What stands in a slot that holds no entry yet.
fn blank_entry() -> Entry
    ensures { result ≡ no_entry }
{
    Entry {
        timestamp: 0,
        encoding: blank(),
        tag: 0,
    }
}

/// The entry at a place, or a blank one where the book has no such place.
fn entry_at(book: &[Entry], place: usize) -> Entry
    ensures { result ≡ slice_index_or book.now place no_entry }
{
    row_or(book, place, blank_entry())
}

/// Whether an entry is exactly this.
fn is_entry(entry: Entry, timestamp: u32, encoding: Encoding, tag: u32) -> bool
    ensures { result ≡ signed (entry ∷ []) timestamp encoding tag }
{
    entry.timestamp == timestamp && same(entry.encoding, encoding) && entry.tag == tag
}

/// Whether exactly this stands at a place of the book.
pub(crate) fn stands_at(
    book: &[Entry],
    place: usize,
    timestamp: u32,
    encoding: Encoding,
    tag: u32,
) -> bool
    ensures { result ≡ signed (take 1 (drop place book.now)) timestamp encoding tag }
{
    place < book.len() && is_entry(entry_at(book, place), timestamp, encoding, tag)
}

/// The greatest timestamp of the book, which is its last, or 0.
pub(crate) fn latest_of(book: &[Entry]) -> u32
    requires { rises 0 book.now ≡ true }
    ensures { result ≡ newest book.now }
{
    book.last().map_or(0, |entry| entry.timestamp)
}

/// How many entries come before a timestamp: the place where it stands, if it stands anywhere.
pub(crate) fn place_of(book: &[Entry], timestamp: u32) -> usize
    requires { rises 0 book.now ≡ true }
    ensures before { (k : ℕ) → k < result → (get_or book.now k no_entry).timestamp < timestamp }
    ensures after { (k : ℕ) → result ≤ k → k < length book.now → timestamp ≤ (get_or book.now k no_entry).timestamp }
{
    let mut low = 0;
    let mut high = book.len();
    while low < high {
        let middle = low + (high - low) / 2;
        if entry_at(book, middle).timestamp < timestamp {
            low = middle + 1;
        } else {
            high = middle;
        }
    }
    low
}
