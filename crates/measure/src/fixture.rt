// A cluster that stands ready for a workload.
use crate::numbers::Number;
use cluster::cluster::Cluster;
use cluster::journal::Line;
use cluster::making::Parts;
use cluster::reader::Reader;
use cluster::rows::Rows;
use cluster::tables::Tables;
use encodings::encoding::Encoding;
use protocol::message::Message;
use protocol::version::Version;
use quorums::quorum_system::QuorumSystem;
use quorums::threshold::Threshold;
use replica_sets::replica_set::ReplicaSet;
use settings::shelf_mark::ShelfMark;
use signatures::inline_signer::InlineSigner;
use signatures::ledger::Ledger;
use std::alloc::{AllocError, Global};

/// How many readers there are.
const READERS: usize = 8;

/// How many lines the journal can have.
const LINES: usize = 8192;

/// How many entries the ledger can have.
const ENTRIES: usize = 64;

/// The rows of a cluster's tables, of which all but the readers' lie in memory that is got for them.
#[derive(Drop)]
pub(crate) struct HeapRows {
    replicas: Vec<Version<Encoding>>,
    pub readers: [Reader; READERS],
    messages: Vec<Message<Encoding>>,
    lines: Vec<Line>,
}

/// A cluster with its tables, and the number of the replica that may be faulty, the last.
#[derive(Drop)]
pub(crate) struct Fixture {
    pub cluster: Cluster<ShelfMark, Threshold, Ledger>,
    pub rows: HeapRows,
    pub last_replica: u32,
    pub last_place: usize,
}

/// The replicas of which the last is faulty where there are enough.
fn faulty_of(replicas: u32) -> ReplicaSet {
    if replicas < 4 {
        ReplicaSet::empty()
    } else {
        ReplicaSet::empty().with(replicas - 1)
    }
}

impl HeapRows {
    /// Rows that hold nothing yet, of so many replicas and messages.
    fn blank(heap: Global, replicas: usize, messages: usize) -> Result<HeapRows, AllocError> {
        let Rows {
            replicas: [version],
            readers: [reader],
            messages: [message],
            lines: [line],
        } = Rows::<1, 1, 1, 1>::blank();
        Ok(HeapRows {
            replicas: vec![in heap; version; replicas]?,
            readers: [reader; READERS],
            messages: vec![in heap; message; messages]?,
            lines: vec![in heap; line; LINES]?,
        })
    }

    /// The tables, for one call.
    pub(crate) fn tables(&mut self) -> Tables<'_> {
        Tables {
            replicas: self.replicas.as_mut_slice(),
            readers: self.readers.as_mut_slice(),
            messages: self.messages.as_mut_slice(),
            lines: self.lines.as_mut_slice(),
        }
    }
}

impl Fixture {
    /// A new cluster of so many replicas and places for messages.
    fn new(heap: Global, count: u32, places: usize) -> Result<Fixture, AllocError> {
        let system = Threshold::new(count, count.saturating_sub(1) / 3);
        let mut rows = HeapRows::blank(heap, system.replicas() as usize, places)?;
        let parts = Parts {
            system,
            signatures: Ledger::with_room(heap, ENTRIES)?,
            faulty: faulty_of(count),
            reader_count: READERS,
        };
        Ok(Fixture {
            cluster: Cluster::new(parts, &mut rows.tables()),
            rows,
            last_replica: count.saturating_sub(1),
            last_place: places.saturating_sub(1),
        })
    }

    /// A cluster in which a write and a read of reader 1 are under way, and all places but one are used.
    pub(crate) fn ready(
        heap: Global,
        count: u32,
        places: usize,
        mark: ShelfMark,
    ) -> Result<Fixture, AllocError> {
        let mut fixture = Fixture::new(heap, count, places)?;
        let _ = fixture.cluster.write(&mut fixture.rows.tables(), mark);
        let _ = fixture.cluster.read(&mut fixture.rows.tables(), 1);
        for _ in 2..fixture.last_place {
            fixture.deliver_request(1, 0);
        }
        Ok(fixture)
    }

    /// A cluster made anew on the same tables, with an inline signer.
    pub(crate) fn made_anew(&mut self) -> Cluster<ShelfMark, Threshold, InlineSigner> {
        let parts = Parts {
            system: *self.cluster.system(),
            signatures: InlineSigner::new(0),
            faulty: self.cluster.faulty(),
            reader_count: READERS,
        };
        Cluster::new(parts, &mut self.rows.tables())
    }

    /// `deliver_request`, as a number.
    pub(crate) fn deliver_request(&mut self, message: usize, replica: u32) -> u64 {
        self.cluster
            .deliver_request(&mut self.rows.tables(), message, replica)
            .number()
    }

    /// `deliver_reply`, as a number.
    pub(crate) fn deliver_reply(&mut self, message: usize) -> u64 {
        self.cluster
            .deliver_reply(&mut self.rows.tables(), message)
            .number()
    }

    /// `forge_reply`, as a number.
    pub(crate) fn forge_reply(&mut self, message: Message<ShelfMark>) -> u64 {
        self.cluster
            .forge_reply(&mut self.rows.tables(), message)
            .number()
    }

    /// `drop_message`, as a number.
    pub(crate) fn drop_message(&mut self, message: usize) -> u64 {
        self.cluster
            .drop_message(&mut self.rows.tables(), message)
            .number()
    }

    /// `collect`, as a number.
    pub(crate) fn collect(&mut self, reader: u32) -> u64 {
        self.cluster
            .collect(&mut self.rows.tables(), reader)
            .number()
    }
}
