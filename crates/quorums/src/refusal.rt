// Why the parameters of a quorum system are refused.
ghost use Rattle.std.specs.Prelude.{◌≡◌, Some};
ghost use Rattle.quorums.specs.Refusals.{code_of, refusal_words};

use std::error::Error;
use std::fmt;

/// Why a quorum system is not made as asked for.
#[derive(Clone, Copy, Debug, PartialEq, Eq)]
pub enum Refusal {
    /// The number of replicas is not from 1 to 32.
    ReplicaCount = 1,
    /// There are too many listed sets, or one has a replica that there is not.
    ListedSets = 2,
    /// Too many replicas may be faulty together.
    FaultBound = 3,
}

impl Refusal {
    /// The refusal's number.
    pub fn code(self) -> u8
        ensures { result ≡ code_of self }
    {
        self as u8
    }
}

impl fmt::Display for Refusal {
    ghost output = { λ r. Some (refusal_words r) };

    fn fmt<W: fmt::Write>(&self, f: &mut fmt::Formatter<W>) -> fmt::Result {
        f.write_str(match self {
            Refusal::ReplicaCount => "the number of replicas is not from 1 to 32",
            Refusal::ListedSets =>
                "there are too many listed sets, or one has a replica that there is not",
            Refusal::FaultBound => "too many replicas may be faulty together",
        })
    }
}

impl Error for Refusal {}
