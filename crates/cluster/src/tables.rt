// The four tables that come along with each call.
ghost use Rattle.std.specs.Prelude.{◌≡◌, length, replicate};
ghost use Rattle.cluster.specs.State.{sizes_of};

use crate::journal::Line;
use crate::reader::Reader;
use encodings::encoding::Encoding;
use protocol::message::Message;
use protocol::version::Version;

/// The tables of replicas, readers, messages and journal lines, as their owner hands them in.
#[derive(Drop)]
pub struct Tables<'a> {
    /// The version that each replica keeps.
    pub replicas: &'a mut [Version<Encoding>],
    /// The readers' rows.
    pub readers: &'a mut [Reader],
    /// At its front, the messages in flight.
    pub messages: &'a mut [Message<Encoding>],
    /// At its front, the lines of the journal.
    pub lines: &'a mut [Line],
}

/// How many rows each of the four tables has.
#[derive(Clone, Copy, Debug, PartialEq, Eq)]
pub struct TableSizes {
    pub replicas: usize,
    pub readers: usize,
    pub messages: usize,
    pub lines: usize,
}

impl Tables<'_> {
    /// How many rows each table has.
    pub fn sizes(&self) -> TableSizes
        ensures { result ≡ sizes_of self.now }
    {
        TableSizes {
            replicas: self.replicas.len(),
            readers: self.readers.len(),
            messages: self.messages.len(),
            lines: self.lines.len(),
        }
    }
}

/// Writes one row into every place.
pub(crate) fn fill<T: Copy>(rows: &mut [T], row: T)
    ensures { rows.new ≡ replicate (length rows.old) row }
{
    for place in rows {
        *place = row;
    }
}
