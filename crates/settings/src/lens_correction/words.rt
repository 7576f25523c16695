// Eight big-endian words in 32 bytes, and the fields that they stand for.
ghost use Rattle.std.specs.Prelude.{◌≡◌, ◌<◌};
ghost use Rattle.settings.specs.Words.{encode_words, unsigned_at, signed_at};
ghost use Rattle.settings.specs.Lens.{fields_at, field_words};

use super::fields::LensFields;
use encodings::encoding::{Encoding, blank};

/// The word at a place from 0 to 7.
fn unsigned_at(bytes: Encoding, place: usize) -> u32
    requires { place < 8 }
    ensures { result ≡ unsigned_at bytes place }
{
    let (words, _) = bytes.as_chunks();
    u32::from_be_bytes(words[place])
}

/// The word at a place from 0 to 7, as two's complement.
fn signed_at(bytes: Encoding, place: usize) -> i32
    requires { place < 8 }
    ensures { result ≡ signed_at bytes place }
{
    unsigned_at(bytes, place).cast_signed()
}

/// The fields that the bytes stand for.
pub(super) fn fields_of(bytes: Encoding) -> LensFields
    ensures { result ≡ fields_at bytes }
{
    LensFields {
        band: unsigned_at(bytes, 0),
        k1: signed_at(bytes, 1),
        k2: signed_at(bytes, 2),
        k3: signed_at(bytes, 3),
        p1: signed_at(bytes, 4),
        p2: signed_at(bytes, 5),
        centre_x: signed_at(bytes, 6),
        centre_y: signed_at(bytes, 7),
    }
}

/// The words of the fields, in their order.
pub(super) fn words_of(fields: LensFields) -> [u32; 8]
    ensures { result ≡ field_words fields }
{
    [
        fields.band,
        fields.k1.cast_unsigned(),
        fields.k2.cast_unsigned(),
        fields.k3.cast_unsigned(),
        fields.p1.cast_unsigned(),
        fields.p2.cast_unsigned(),
        fields.centre_x.cast_unsigned(),
        fields.centre_y.cast_unsigned(),
    ]
}

/// The bytes of eight words, one after another.
pub(super) fn bytes_of(words: [u32; 8]) -> Encoding
    ensures { result ≡ encode_words words }
{
    let mut bytes = blank();
    bytes.copy_from_slice(words.map(u32::to_be_bytes).as_flattened());
    bytes
}
