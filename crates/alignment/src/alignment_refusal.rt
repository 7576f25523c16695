// Why a band isn't noted.
ghost use Rattle.std.specs.Prelude.{◌≡◌, Some};
ghost use Rattle.alignment.specs.Refusals.{alignment_number, alignment_refusal_words};

use std::error::Error;
use std::fmt;

/// Why a band isn't noted.
#[derive(Clone, Copy, Debug, PartialEq, Eq)]
pub enum AlignmentRefusal {
    /// There is no such band.
    NoSuchBand = 29,
    /// The band is taken: it was noted before.
    BandTaken = 30,
}

impl AlignmentRefusal {
    /// The refusal's number.
    pub fn number(self) -> u32
        ensures { result ≡ alignment_number self }
    {
        self as u32
    }
}

impl fmt::Display for AlignmentRefusal {
    ghost output = { λ r. Some (alignment_refusal_words r) };

    fn fmt<W: fmt::Write>(&self, f: &mut fmt::Formatter<W>) -> fmt::Result {
        f.write_str(match self {
            AlignmentRefusal::NoSuchBand => "there is no such band",
            AlignmentRefusal::BandTaken => "the band is taken",
        })
    }
}

impl Error for AlignmentRefusal {}
