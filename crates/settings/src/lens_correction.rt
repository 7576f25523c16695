// The correction of a lens.
ghost use Rattle.std.specs.Prelude.{◌≡◌, true};
ghost use Rattle.settings.specs.Lens.{in_bounds};

use fields::LensFields;

mod accessors;
mod bounds;
pub mod codec;
pub mod error;
pub mod fields;
mod words;

/// The correction of a lens, every field within its bounds.
#[derive(Clone, Copy, Debug, PartialEq, Eq)]
pub struct LensCorrection {
    fields: LensFields,
    ghost bounded: { in_bounds fields ≡ true },
}
