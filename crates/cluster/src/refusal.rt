// Why a cluster isn't made, or a call isn't carried out.
ghost use Rattle.std.specs.Prelude.{◌≡◌, Some};
ghost use Rattle.cluster.specs.Refusals.{number};
ghost use Rattle.cluster.specs.Words.{refusal_words};

use std::error::Error;
use std::fmt;

/// Why a cluster isn't made, or a call isn't carried out.
#[derive(Clone, Copy, Debug, PartialEq, Eq)]
pub enum Refusal {
    /// There are no readers, or more than 8.
    ReaderCount = 4,
    /// A table hasn't the size that it has to have.
    TableSize = 5,
    /// The faulty replicas are no fault set.
    NoFaultSet = 6,
    /// The scheme's book isn't empty.
    BookInUse = 7,
    /// The cluster is shut.
    Shut = 8,
    /// There is no such client.
    NoClient = 9,
    /// The client's operation is open.
    OperationOpen = 10,
    /// The client's operation numbers are used up.
    OperationsUsed = 11,
    /// As many messages are in flight as there are places.
    InFlightFull = 12,
    /// Too few journal lines are free.
    JournalFull = 13,
    /// The scheme refuses to sign.
    SigningRefused = 14,
    /// There is no such message in flight.
    NoMessage = 15,
    /// A request was to go to a client, or a reply to a replica.
    WrongWay = 16,
    /// There is no such replica.
    NoReplica = 17,
    /// A reply was forged for a correct replica.
    ReplicaCorrect = 18,
    /// The reader has no completed read.
    NothingCompleted = 19,
}

impl Refusal {
    /// The refusal's number.
    pub fn number(self) -> u32
        ensures { result ≡ number self }
    {
        self as u32
    }
}

impl fmt::Display for Refusal {
    ghost output = { λ r. Some (refusal_words r) };

    fn fmt<W: fmt::Write>(&self, f: &mut fmt::Formatter<W>) -> fmt::Result {
        f.write_str(match self {
            Refusal::ReaderCount => "there are no readers, or more than 8",
            Refusal::TableSize => "a table hasn't the size that it has to have",
            Refusal::NoFaultSet => "the faulty replicas are no fault set",
            Refusal::BookInUse => "the scheme's book isn't empty",
            Refusal::Shut => "the cluster is shut",
            Refusal::NoClient => "there is no such client",
            Refusal::OperationOpen => "the client's operation is open",
            Refusal::OperationsUsed => "the client's operation numbers are used up",
            Refusal::InFlightFull => "as many messages are in flight as there are places",
            Refusal::JournalFull => "too few journal lines are free",
            Refusal::SigningRefused => "the scheme refuses to sign",
            Refusal::NoMessage => "there is no such message in flight",
            Refusal::WrongWay => "a request goes to replicas, and a reply to its client",
            Refusal::NoReplica => "there is no such replica",
            Refusal::ReplicaCorrect => "a correct replica's replies can't be forged",
            Refusal::NothingCompleted => "the reader has no completed read",
        })
    }
}

impl Error for Refusal {}
