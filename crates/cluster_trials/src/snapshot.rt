// What a cluster shows of itself and the rows of its tables, so that a test can say that nothing changed.
use crate::trial::{Trial, TrialRows};
use protocol::client::Client;
use quorums::threshold::Threshold;
use replica_sets::replica_set::ReplicaSet;
use signatures::signatures::Signatures;

/// All that can be seen of a trial.
#[derive(Clone, Copy, Debug, PartialEq, Eq)]
pub(crate) struct Snapshot {
    rows: TrialRows,
    writer: Client,
    messages_in_flight: usize,
    journal_lines: usize,
    faulty: ReplicaSet,
    is_shut: bool,
    system: Threshold,
    entries: usize,
    latest: u32,
    free: usize,
}

impl<K: Signatures> Trial<K> {
    /// All that can be seen of the trial.
    pub(crate) fn snapshot(&self) -> Snapshot {
        let cluster = &self.cluster;
        let signatures = cluster.signatures();
        Snapshot {
            rows: self.rows,
            writer: cluster.writer(),
            messages_in_flight: cluster.messages_in_flight(),
            journal_lines: cluster.journal_lines(),
            faulty: cluster.faulty(),
            is_shut: cluster.is_shut(),
            system: *cluster.system(),
            entries: signatures.entries(),
            latest: signatures.latest(),
            free: signatures.free(),
        }
    }
}
