// Why a text is no shelf mark.
ghost use Rattle.std.specs.Prelude.{Some, codes};

use std::error::Error;
use std::fmt;

/// A text is not 1 to 32 visible characters.
#[derive(Clone, Copy, Debug, PartialEq, Eq)]
pub struct NoShelfMark;

impl fmt::Display for NoShelfMark {
    ghost output = { λ _. Some (codes "a shelf mark is 1 to 32 visible characters") };

    fn fmt<W: fmt::Write>(&self, f: &mut fmt::Formatter<W>) -> fmt::Result {
        f.write_str("a shelf mark is 1 to 32 visible characters")
    }
}

impl Error for NoShelfMark {}
