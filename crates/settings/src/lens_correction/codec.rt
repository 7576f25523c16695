// Lens corrections and their bytes.
ghost use Rattle.std.specs.Prelude.{◌≡◌};
ghost use Rattle.settings.specs.Lens.{is_lens};
ghost use Rattle.settings.specs.LensKind.{no_fields, identity, decoded_fields, lens_of, GivesCorrection, lens_kind};
ghost use Rattle.settings.specs.LensLaws.{lens_laws};

use super::LensCorrection;
use super::bounds::fields_fit;
use super::error::OutOfBounds;
use super::fields::LensFields;
use super::words::{bytes_of, fields_of, words_of};
use crate::setting::Setting;
use encodings::encoding::Encoding;

/// The fields of the correction that changes nothing: all zero.
fn no_fields() -> LensFields
    ensures { result ≡ no_fields }
{
    LensFields {
        band: 0,
        k1: 0,
        k2: 0,
        k3: 0,
        p1: 0,
        p2: 0,
        centre_x: 0,
        centre_y: 0,
    }
}

/// The correction that changes nothing.
fn no_correction() -> LensCorrection
    ensures { result ≡ identity }
{
    LensCorrection {
        fields: no_fields(),
    }
}

/// Whether the bytes stand for fields within their bounds.
fn is_lens(bytes: &[u8; 32]) -> bool
    ensures { result ≡ is_lens bytes.now }
{
    fields_fit(fields_of(*bytes))
}

/// The fields with these bytes, or all zero where they are no encoding.
fn decode_fields(bytes: [u8; 32]) -> LensFields
    ensures { result ≡ decoded_fields bytes }
{
    if is_lens(&bytes) {
        fields_of(bytes)
    } else {
        no_fields()
    }
}

/// The correction with these bytes, or the identity where they are no encoding.
fn lens_of(bytes: [u8; 32]) -> LensCorrection
    ensures { result ≡ lens_of bytes }
{
    LensCorrection {
        fields: decode_fields(bytes),
    }
}

impl TryFrom<LensFields> for LensCorrection {
    type Error = OutOfBounds;

    ghost try_from_gives = { GivesCorrection };

    fn try_from(fields: LensFields) -> Result<LensCorrection, OutOfBounds> {
        if fields_fit(fields) {
            Ok(LensCorrection { fields })
        } else {
            Err(OutOfBounds)
        }
    }
}

impl Setting for LensCorrection {
    ghost kind = { lens_kind };

    ghost lawful = { lens_laws };

    fn initial() -> LensCorrection {
        no_correction()
    }

    fn encode(self) -> Encoding {
        bytes_of(words_of(self.fields))
    }

    fn is_encoding(bytes: Encoding) -> bool {
        is_lens(&bytes)
    }

    fn decode(bytes: Encoding) -> LensCorrection {
        lens_of(bytes)
    }
}
