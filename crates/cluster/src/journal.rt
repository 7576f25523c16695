// The journal: a line for each operation as it begins and as it ends.
ghost use Rattle.std.specs.Prelude.{◌≡◌};
ghost use Rattle.cluster.specs.Journal.{kind_number, line};

/// What a journal line tells.
#[derive(Clone, Copy, Debug, PartialEq, Eq)]
pub enum LineKind {
    WriteBegun = 1,
    WriteFinished = 2,
    ReadBegun = 3,
    ReadFinished = 4,
}

/// A journal line: the number of its kind, the client, the client's operation, and the operation's timestamp.
///
/// A table's row is plain numbers, and may hold any when it is handed in: a `LineKind` here would ask more of its owner.
#[derive(Clone, Copy, Debug, Default, PartialEq, Eq)]
pub struct Line {
    pub kind: u32,
    pub client: u32,
    pub op: u32,
    pub timestamp: u32,
}

impl LineKind {
    /// The kind's number: 1 write begun, 2 write finished, 3 read begun, 4 read finished.
    pub fn number(self) -> u32
        ensures { result ≡ kind_number self }
    {
        self as u32
    }
}

impl Line {
    /// A line of the kind.
    pub fn new(kind: LineKind, client: u32, op: u32, timestamp: u32) -> Line
        ensures { result ≡ line kind client op timestamp }
    {
        Line {
            kind: kind.number(),
            client,
            op,
            timestamp,
        }
    }
}
