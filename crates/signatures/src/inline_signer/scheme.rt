// What an inline signer does.
ghost use Rattle.std.specs.Prelude.{◌≡◌, ◌+◌, ◌<◌, true, [], ◌∷◌, ◌++◌, IfSome, None};
ghost use Rattle.signatures.specs.Books.{Signs};
ghost use Rattle.signatures.specs.InlineSigners.{inline_book, inline_free, inline_start, inline_tag};
ghost use Rattle.signatures.specs.Orders.{rises};

use super::{InlineSigner, SLOTS};
use crate::book::{latest_of, may_sign, place_of, stands_at};
use crate::entry::Entry;
use crate::signatures::Signatures;
use encodings::encoding::Encoding;

/// The tag of a timestamp: it wraps at 2^32.
fn tag_of(start: u32, timestamp: u32) -> u32
    ensures { result ≡ inline_tag start timestamp }
{
    timestamp.wrapping_add(start)
}

impl InlineSigner {
    /// An empty book, whose tags count from `start`.
    pub fn new(start: u32) -> InlineSigner
        ensures book { inline_book result ≡ [] }
        ensures free { inline_free result ≡ 64 }
        ensures start { inline_start result ≡ start }
    {
        InlineSigner {
            slots: [Entry::default(); SLOTS],
            used: 0,
            start,
        }
    }

    /// The slots that are used.
    fn book(&self) -> &[Entry]
        ensures { result.now ≡ inline_book self.now }
    {
        &self.slots[..self.used]
    }

    /// Writes an entry into the first free slot.
    fn append(&mut self, entry: Entry)
        requires room { 0 < inline_free self.old }
        requires newer { rises 0 (inline_book self.old ++ (entry ∷ [])) ≡ true }
        ensures book { inline_book self.new ≡ inline_book self.old ++ (entry ∷ []) }
        ensures free { inline_free self.new + 1 ≡ inline_free self.old }
        ensures start { inline_start self.new ≡ inline_start self.old }
    {
        self.slots[self.used] = entry;
        self.used += 1;
    }
}

impl Signatures for InlineSigner {
    ghost book = { inline_book };

    ghost free = { inline_free };

    // The ledger's body differs in the tag alone; one body in the trait would need a public `append`, which any caller could misuse.
    fn sign(&mut self, timestamp: u32, encoding: Encoding) -> Option<u32>
        ensures signs { Signs (inline_book self.old) (inline_free self.old) timestamp encoding result (inline_book self.new) (inline_free self.new) }
        ensures unchanged { result ≡ None → self.new ≡ self.old }
        ensures tag { IfSome result (λ t. t ≡ inline_tag (inline_start self.old) timestamp) }
        ensures start { inline_start self.new ≡ inline_start self.old }
    {
        if !may_sign(self.latest(), self.free(), timestamp) {
            return None;
        }
        let tag = tag_of(self.start, timestamp);
        self.append(Entry {
            timestamp,
            encoding,
            tag,
        });
        Some(tag)
    }

    fn verify(&self, timestamp: u32, encoding: Encoding, tag: u32) -> bool {
        let book = self.book();
        stands_at(book, place_of(book, timestamp), timestamp, encoding, tag)
    }

    fn entries(&self) -> usize {
        self.book().len()
    }

    fn latest(&self) -> u32 {
        latest_of(self.book())
    }

    fn free(&self) -> usize {
        SLOTS - self.used
    }
}
