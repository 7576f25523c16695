// Shelf marks and their bytes.
ghost use Rattle.std.specs.Prelude.{◌≡◌, true};
ghost use Rattle.settings.specs.Marks.{is_text, text_of, is_mark};
ghost use Rattle.settings.specs.MarkKind.{dash_bytes, dash, decoded_bytes, mark_of, GivesMark, mark_kind};
ghost use Rattle.settings.specs.MarkLaws.{mark_laws};

use super::ShelfMark;
use super::error::NoShelfMark;
use super::text::{is_text, padded, text_length};
use crate::setting::Setting;
use encodings::encoding::{Encoding, same};

/// The bytes of the mark `-`.
fn dash_bytes() -> [u8; 32]
    ensures { result ≡ dash_bytes }
{
    padded(b"-")
}

/// The mark `-`.
fn dash_mark() -> ShelfMark
    ensures { result ≡ dash }
{
    let bytes = dash_bytes();
    ShelfMark { bytes }
}

/// Whether the bytes are a mark's text, and then zeros.
fn is_mark(bytes: &[u8; 32]) -> bool
    ensures { result ≡ is_mark bytes.now }
{
    let text = &bytes[..text_length(bytes)];
    is_text(text) && same(*bytes, padded(text))
}

/// The bytes, or those of `-` where they are no encoding.
fn decode_bytes(bytes: [u8; 32]) -> [u8; 32]
    ensures { result ≡ decoded_bytes bytes }
{
    if is_mark(&bytes) { bytes } else { dash_bytes() }
}

/// The mark with these bytes, or `-` where they are no encoding.
fn mark_of(bytes: [u8; 32]) -> ShelfMark
    ensures { result ≡ mark_of bytes }
{
    let bytes = decode_bytes(bytes);
    ShelfMark { bytes }
}

/// The mark with this text.
fn mark_with(text: &[u8]) -> ShelfMark
    requires { is_text text.now ≡ true }
    ensures { text_of result.bytes ≡ text.now }
{
    let bytes = padded(text);
    ShelfMark { bytes }
}

impl TryFrom<&[u8]> for ShelfMark {
    type Error = NoShelfMark;

    ghost try_from_gives = { λ text r. GivesMark text.now r };

    fn try_from(text: &[u8]) -> Result<ShelfMark, NoShelfMark> {
        if !is_text(text) {
            return Err(NoShelfMark);
        }
        Ok(mark_with(text))
    }
}

impl Setting for ShelfMark {
    ghost kind = { mark_kind };

    ghost lawful = { mark_laws };

    fn initial() -> ShelfMark {
        dash_mark()
    }

    fn encode(self) -> Encoding {
        self.bytes
    }

    fn is_encoding(bytes: Encoding) -> bool {
        is_mark(&bytes)
    }

    fn decode(bytes: Encoding) -> ShelfMark {
        mark_of(bytes)
    }
}
