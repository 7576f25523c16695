// A small cluster with its rows: four replicas, two readers, room for 12 messages and 6 journal lines.
use atomicity::answer::Answer;
use atomicity::call::Call;
use atomicity::calling::make_call;
use cluster::cluster::Cluster;
use cluster::completed_read::CompletedRead;
use cluster::delivery::Delivery;
use cluster::making::Parts;
use cluster::refusal::Refusal;
use cluster::rows::Rows;
use cluster::tables::{TableSizes, Tables};
use protocol::client::{Phase, Reply};
use protocol::message::Message;
use quorums::threshold::Threshold;
use replica_sets::replica_set::ReplicaSet;
use settings::shelf_mark::ShelfMark;
use signatures::signatures::Signatures;

/// The cluster of a trial.
pub(crate) type TrialCluster<K> = Cluster<ShelfMark, Threshold, K>;

/// The rows of a trial's tables.
pub(crate) type TrialRows = Rows<4, 2, 12, 6>;

/// How many rows each table of a trial has.
const SIZES: TableSizes = TableSizes {
    replicas: 4,
    readers: 2,
    messages: 12,
    lines: 6,
};

/// A cluster with its rows.
#[derive(Drop)]
pub(crate) struct Trial<K> {
    pub cluster: TrialCluster<K>,
    pub rows: TrialRows,
}

/// The first rows, or all where there are no more.
fn front<T>(rows: &mut [T], count: usize) -> &mut [T] {
    let count = count.min(rows.len());
    &mut rows[..count]
}

impl<K: Signatures> Trial<K> {
    /// A cluster of four replicas with this signature scheme and this set of faulty replicas.
    pub(crate) fn new(signatures: K, faulty: ReplicaSet) -> Trial<K> {
        let mut rows = Rows::blank();
        let parts = Parts {
            system: Threshold::new(4, 1),
            signatures,
            faulty,
            reader_count: 2,
        };
        let cluster = Cluster::new(parts, &mut rows.tables());
        Trial { cluster, rows }
    }

    /// Makes a call with tables of these sizes, and gives its answer, a refusal by its number.
    pub(crate) fn call<T, F>(&mut self, sizes: TableSizes, call: F) -> Result<T, u32>
    where
        F: FnOnce(&mut TrialCluster<K>, &mut Tables<'_>) -> Result<T, Refusal>,
        requires { F.IsAlwaysCallable call }
    {
        let Tables {
            replicas,
            readers,
            messages,
            lines,
        } = self.rows.tables();
        let mut tables = Tables {
            replicas: front(replicas, sizes.replicas),
            readers: front(readers, sizes.readers),
            messages: front(messages, sizes.messages),
            lines: front(lines, sizes.lines),
        };
        call(&mut self.cluster, &mut tables).map_err(Refusal::number)
    }

    /// Makes a call that is a value, with tables of these sizes.
    pub(crate) fn make_call(
        &mut self,
        sizes: TableSizes,
        call: Call<ShelfMark>,
    ) -> Result<Answer<ShelfMark>, u32> {
        self.call(sizes, |cluster, tables| make_call(cluster, tables, call))
    }

    pub(crate) fn write(&mut self, setting: ShelfMark) -> Result<u32, u32> {
        self.call(SIZES, |cluster, tables| cluster.write(tables, setting))
    }

    pub(crate) fn read(&mut self, reader: u32) -> Result<u32, u32> {
        self.call(SIZES, |cluster, tables| cluster.read(tables, reader))
    }

    pub(crate) fn deliver_request(
        &mut self,
        message: usize,
        replica: u32,
    ) -> Result<Delivery, u32> {
        self.call(
            SIZES,
            |cluster, tables| cluster.deliver_request(tables, message, replica),
        )
    }

    pub(crate) fn deliver_reply(&mut self, message: usize) -> Result<Reply, u32> {
        self.call(
            SIZES,
            |cluster, tables| cluster.deliver_reply(tables, message),
        )
    }

    pub(crate) fn forge_reply(&mut self, message: Message<ShelfMark>) -> Result<Reply, u32> {
        self.call(
            SIZES,
            |cluster, tables| cluster.forge_reply(tables, message),
        )
    }

    pub(crate) fn drop_message(&mut self, message: usize) -> Result<(), u32> {
        self.call(
            SIZES,
            |cluster, tables| cluster.drop_message(tables, message),
        )
    }

    pub(crate) fn collect(&mut self, reader: u32) -> Result<CompletedRead<ShelfMark>, u32> {
        self.call(SIZES, |cluster, tables| cluster.collect(tables, reader))
    }

    /// Puts reader 1 into the read 1, one reply short of the end of the phase.
    pub(crate) fn put_near_end(&mut self, phase: Phase) {
        let client = &mut self.rows.readers[0].client;
        client.phase = phase;
        client.op = 1;
        client.heard = ReplicaSet::of_bits(3);
    }
}
