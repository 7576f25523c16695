// The rows of the four tables that come along with each call.
use crate::bytes::{random_line, random_message_row, random_row};
use crate::generator::Generator;
use crate::readers::random_reader_row;
use cluster::journal::Line;
use cluster::reader::Reader;
use cluster::tables::{TableSizes, Tables};
use encodings::encoding::{Encoding, blank};
use protocol::client::{Client, Phase};
use protocol::message::Message;
use protocol::version::Version;
use replica_sets::replica_set::ReplicaSet;
use std::alloc::{AllocError, Global};

/// The rows of the four tables.
///
/// `measure` has such rows of its own: what they hold at first differs, and one type for both would be no plainer than four fields.
#[derive(Drop)]
pub(crate) struct Rows {
    pub replicas: Vec<Version<Encoding>>,
    pub readers: Vec<Reader>,
    pub messages: Vec<Message<Encoding>>,
    pub lines: Vec<Line>,
}

/// A version row of zero bytes.
fn blank_row(timestamp: u32, tag: u32) -> Version<Encoding> {
    Version {
        timestamp,
        value: blank(),
        tag,
    }
}

/// What a reader's row holds before a cluster is made.
fn stale_reader() -> Reader {
    Reader {
        client: Client {
            phase: Phase::Idle,
            op: 3,
            heard: ReplicaSet::empty(),
            best: blank_row(0, 0),
        },
        completed: None,
    }
}

impl Rows {
    /// Rows for tables of these sizes, with what they hold before a cluster is made.
    pub(crate) fn new(heap: Global, sizes: TableSizes) -> Result<Rows, AllocError> {
        Ok(Rows {
            replicas: vec![in heap; blank_row(7, 7); sizes.replicas]?,
            readers: vec![in heap; stale_reader(); sizes.readers]?,
            messages: vec![in heap; Message::Query { client: 0, op: 0 }; sizes.messages]?,
            lines: vec![in heap; Line::default(); sizes.lines]?,
        })
    }

    /// The tables of all rows.
    pub(crate) fn tables(&mut self) -> Tables<'_> {
        let sizes = self.sizes();
        self.first(sizes)
    }

    /// The tables of the first rows, so many of each as there are.
    pub(crate) fn first(&mut self, passed: TableSizes) -> Tables<'_> {
        Tables {
            replicas: front(&mut self.replicas, passed.replicas),
            readers: front(&mut self.readers, passed.readers),
            messages: front(&mut self.messages, passed.messages),
            lines: front(&mut self.lines, passed.lines),
        }
    }

    /// How many rows each table has.
    pub(crate) fn sizes(&self) -> TableSizes {
        TableSizes {
            replicas: self.replicas.len(),
            readers: self.readers.len(),
            messages: self.messages.len(),
            lines: self.lines.len(),
        }
    }
}

/// The first rows of a table, or all where there are no more.
///
/// `cluster_trials` has the same two lines of its own: a function for both would be public, and no clause of it could say that the other rows stay.
fn front<T>(rows: &mut [T], count: usize) -> &mut [T] {
    let count = count.min(rows.len());
    &mut rows[..count]
}

/// How many rows there are, as a number of 32 bits.
pub(crate) fn count_of(rows: usize) -> u32 {
    u32::try_from(rows).unwrap_or(u32::MAX)
}

/// Writes a random row over one of the table's rows, where there is any.
fn scribble_over<T: Copy, F: FnOnce(&mut Generator) -> T>(
    generator: &mut Generator,
    rows: &mut [T],
    random: F,
)
    requires { F.IsAlwaysCallable random }
{
    if let Some(place) = generator.place(rows.len()) {
        rows[place] = random(generator);
    }
}

/// Writes a random row over a row of one of the tables, of which so many messages and lines are in use.
pub(crate) fn scribble(
    generator: &mut Generator,
    rows: &mut Rows,
    replicas: u32,
    in_flight: usize,
    lines_used: usize,
) {
    let used = TableSizes {
        messages: in_flight,
        lines: lines_used,
        ..rows.sizes()
    };
    let tables = rows.first(used);
    match generator.below(4) {
        0 => scribble_over(generator, tables.replicas, random_row),
        1 => scribble_over(generator, tables.readers, |generator| {
            random_reader_row(generator, replicas)
        }),
        2 => scribble_over(generator, tables.messages, random_message_row),
        _ => scribble_over(generator, tables.lines, random_line),
    }
}
