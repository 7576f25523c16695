// What every signature scheme does.
ghost use Rattle.std.specs.Prelude.{◌≡◌, ℕ, List, length, None};
ghost use Rattle.signatures.specs.Books.{Signs, signed, newest};
ghost use Rattle.signatures.specs.declared.entry.Entry.{Entry};

use encodings::encoding::Encoding;

/// A scheme that signs encodings under rising timestamps, and knows again what it signed.
pub trait Signatures {
    ghost book: { Self → List Entry };

    ghost free: { Self → ℕ };

    /// Signs an encoding and gives its tag, or `None` where the timestamp is 0 or not above every signed one, or no slot is free.
    fn sign(&mut self, timestamp: u32, encoding: Encoding) -> Option<u32>
        ensures signs { Signs (book self.old) (free self.old) timestamp encoding result (book self.new) (free self.new) }
        ensures unchanged { result ≡ None → self.new ≡ self.old };

    /// Whether exactly this was signed.
    fn verify(&self, timestamp: u32, encoding: Encoding, tag: u32) -> bool
        ensures { result ≡ signed (book self.now) timestamp encoding tag };

    /// How many entries the book has.
    fn entries(&self) -> usize
        ensures { result ≡ length (book self.now) };

    /// The greatest timestamp in the book, or 0.
    fn latest(&self) -> u32
        ensures { result ≡ newest (book self.now) };

    /// How many slots are free.
    fn free(&self) -> usize
        ensures { result ≡ free self.now };
}
