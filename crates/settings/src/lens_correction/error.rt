// Why fields are no lens correction.
ghost use Rattle.std.specs.Prelude.{Some, codes};

use std::error::Error;
use std::fmt;

/// A field of a lens correction lies outside its bounds.
#[derive(Clone, Copy, Debug, PartialEq, Eq)]
pub struct OutOfBounds;

impl fmt::Display for OutOfBounds {
    ghost output = { λ _. Some (codes "a field of the lens correction lies outside its bounds") };

    fn fmt<W: fmt::Write>(&self, f: &mut fmt::Formatter<W>) -> fmt::Result {
        f.write_str("a field of the lens correction lies outside its bounds")
    }
}

impl Error for OutOfBounds {}
