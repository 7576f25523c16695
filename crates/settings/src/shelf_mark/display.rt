// What a shelf mark says.
ghost use Rattle.std.specs.Prelude.{◌≡◌, true, Some};
ghost use Rattle.settings.specs.Marks.{is_text, text_of};

use super::ShelfMark;
use super::text::text_length;
use std::fmt;
use std::str::from_utf8;

impl ShelfMark {
    /// The mark's text, without the zeros: 1 to 32 visible characters.
    pub fn text(&self) -> &[u8]
        ensures value { result.now ≡ text_of self.now.bytes }
        ensures shape { is_text result.now ≡ true }
    {
        &self.bytes[..text_length(&self.bytes)]
    }
}

impl fmt::Display for ShelfMark {
    ghost output = { λ m. Some (text_of m.bytes) };

    fn fmt<W: fmt::Write>(&self, f: &mut fmt::Formatter<W>) -> fmt::Result {
        match from_utf8(self.text()) {
            Ok(text) => text.fmt(f),
            Err(_) => Err(fmt::Error),
        }
    }
}
