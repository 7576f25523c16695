// The bounds of a lens correction's fields.
ghost use Rattle.std.specs.Prelude.{◌≡◌, nat_le, unsigned_abs};
ghost use Rattle.settings.specs.Lens.{radial_fits, tangential_fits, centre_fits, in_bounds};

use super::fields::LensFields;

/// The greatest band.
const BAND_LIMIT: u32 = 63;

/// The greatest size of a coefficient, in billionths: one.
const COEFFICIENT_LIMIT: u32 = 1_000_000_000;

/// The greatest size of an offset, in thousandths of a pixel: 100,000 pixels.
const OFFSET_LIMIT: u32 = 100_000_000;

/// Whether a number's size is at most the limit.
fn is_within(x: i32, limit: u32) -> bool
    ensures { result ≡ nat_le (unsigned_abs x) limit }
{
    x.unsigned_abs() <= limit
}

/// Whether the radial coefficients lie within their bounds.
fn radial_fits(fields: LensFields) -> bool
    ensures { result ≡ radial_fits fields }
{
    is_within(fields.k1, COEFFICIENT_LIMIT)
        && is_within(fields.k2, COEFFICIENT_LIMIT)
        && is_within(fields.k3, COEFFICIENT_LIMIT)
}

/// Whether the tangential coefficients lie within their bounds.
fn tangential_fits(fields: LensFields) -> bool
    ensures { result ≡ tangential_fits fields }
{
    is_within(fields.p1, COEFFICIENT_LIMIT) && is_within(fields.p2, COEFFICIENT_LIMIT)
}

/// Whether the centre's offsets lie within their bounds.
fn centre_fits(fields: LensFields) -> bool
    ensures { result ≡ centre_fits fields }
{
    is_within(fields.centre_x, OFFSET_LIMIT) && is_within(fields.centre_y, OFFSET_LIMIT)
}

/// Whether every field lies within its bounds.
pub(super) fn fields_fit(fields: LensFields) -> bool
    ensures { result ≡ in_bounds fields }
{
    fields.band <= BAND_LIMIT
        && radial_fits(fields)
        && tangential_fits(fields)
        && centre_fits(fields)
}
