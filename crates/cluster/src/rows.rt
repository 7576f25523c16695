// The rows of four tables in one value.
ghost use Rattle.std.specs.Prelude.{◌≡◌, replicate};
ghost use Rattle.cluster.specs.Steps.{no_version, no_reader, no_message};
ghost use Rattle.cluster.specs.Journal.{no_line};

use crate::journal::Line;
use crate::reader::Reader;
use crate::tables::Tables;
use encodings::encoding::{Encoding, blank};
use protocol::client::{Client, Phase};
use protocol::message::Message;
use protocol::version::Version;
use replica_sets::replica_set::ReplicaSet;

/// The rows of four tables of `N` replicas, `S` readers, `M` messages and `L` journal lines.
#[derive(Clone, Copy, Debug, PartialEq, Eq)]
pub struct Rows<const N: usize, const S: usize, const M: usize, const L: usize> {
    pub replicas: [Version<Encoding>; N],
    pub readers: [Reader; S],
    pub messages: [Message<Encoding>; M],
    pub lines: [Line; L],
}

impl<const N: usize, const S: usize, const M: usize, const L: usize> Rows<N, S, M, L> {
    /// Rows that hold nothing yet: zeros, and idle readers.
    pub fn blank() -> Rows<N, S, M, L>
        ensures replicas { result.replicas ≡ replicate N no_version }
        ensures readers { result.readers ≡ replicate S no_reader }
        ensures messages { result.messages ≡ replicate M no_message }
        ensures lines { result.lines ≡ replicate L no_line }
    {
        let version = Version {
            timestamp: 0,
            value: blank(),
            tag: 0,
        };
        let client = Client {
            phase: Phase::Idle,
            op: 0,
            heard: ReplicaSet::empty(),
            best: version,
        };
        let reader = Reader {
            client,
            completed: None,
        };
        Rows {
            replicas: [version; N],
            readers: [reader; S],
            messages: [Message::Query { client: 0, op: 0 }; M],
            lines: [Line::default(); L],
        }
    }

    /// The rows as tables, each whole.
    ///
    /// That what is written there is held by the rows afterwards is Rust's rule of borrows: no clause can say it of four parts that are lent at once.
    pub fn tables(&mut self) -> Tables<'_>
        ensures replicas { result.replicas.now ≡ self.old.replicas }
        ensures readers { result.readers.now ≡ self.old.readers }
        ensures messages { result.messages.now ≡ self.old.messages }
        ensures lines { result.lines.now ≡ self.old.lines }
    {
        Tables {
            replicas: self.replicas.as_mut_slice(),
            readers: self.readers.as_mut_slice(),
            messages: self.messages.as_mut_slice(),
            lines: self.lines.as_mut_slice(),
        }
    }
}
