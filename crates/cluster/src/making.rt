// How a cluster is made.
ghost use Rattle.std.specs.Prelude.{◌≡◌, ◌≤◌, length, OnOk};
ghost use Rattle.cluster.specs.Refusals.{told};
ghost use Rattle.cluster.specs.Making.{sizes_fit, making_refusal, made_state};
ghost use Rattle.cluster.specs.State.{state, sizes_of, SameTables};

use crate::cluster::Cluster;
use crate::front_list::FrontList;
use crate::limits::{FEWEST_LINES, MOST_LINES, MOST_MESSAGES, MOST_READERS};
use crate::reader::Reader;
use crate::refusal::Refusal;
use crate::tables::{TableSizes, Tables, fill};
use protocol::client::{Client, Phase};
use protocol::encoded::encode_version;
use protocol::version::initial_version;
use quorums::quorum_system::QuorumSystem;
use replica_sets::replica_set::ReplicaSet;
use settings::setting::Setting;
use signatures::signatures::Signatures;
use std::marker::PhantomData;

/// What a cluster is made of, besides its tables.
#[derive(Drop)]
pub struct Parts<P, K> {
    /// The quorum system.
    pub system: P,
    /// The signature scheme; its book has to be empty.
    pub signatures: K,
    /// The replicas that are faulty; they have to be a fault set.
    pub faulty: ReplicaSet,
    /// How many readers there are.
    pub reader_count: usize,
}

impl TableSizes {
    /// Whether tables of these sizes fit a system of so many replicas, and so many readers.
    fn fit(self, replicas: usize, readers: usize) -> bool
        ensures { result ≡ sizes_fit replicas readers self }
    {
        self.replicas == replicas
            && self.readers == readers
            && (1..=MOST_MESSAGES).contains(&self.messages)
            && (FEWEST_LINES..=MOST_LINES).contains(&self.lines)
    }
}

impl<S: Setting, P: QuorumSystem, K: Signatures> Cluster<S, P, K> {
    /// Whether a cluster can be made of these parts with tables of these sizes; if not, why.
    ///
    /// It takes the parts one by one, since whoever asks need not own them.
    pub fn check(
        system: &P,
        signatures: &K,
        faulty: ReplicaSet,
        reader_count: usize,
        sizes: TableSizes,
    ) -> Result<(), Refusal>
        ensures refusal { making_refusal (P.quorums system.now) (K.book signatures.now) faulty.members reader_count sizes ≡ told result }
        ensures fit { OnOk result ((reader_count ≤ 8) × (sizes.replicas ≡ (P.quorums system.now).size) × (sizes.readers ≡ reader_count)) }
    {
        if !(1..=MOST_READERS).contains(&reader_count) {
            return Err(Refusal::ReaderCount);
        }
        if !sizes.fit(system.replicas() as usize, reader_count) {
            return Err(Refusal::TableSize);
        }
        if !system.is_fault_set(faulty) {
            return Err(Refusal::NoFaultSet);
        }
        if signatures.entries() != 0 {
            return Err(Refusal::BookInUse);
        }
        Ok(())
    }

    /// Makes a cluster: all parties are fresh, no message is in flight, and the journal is empty.
    ///
    /// Made in spite of a refusal that `check` tells, the cluster is shut, and no table is written.
    pub fn new(parts: Parts<P, K>, tables: &mut Tables<'_>) -> Cluster<S, P, K>
        ensures made { state P.quorums K.book K.free result tables.new ≡ made_state S.kind (P.quorums parts.system) (K.book parts.signatures) (K.free parts.signatures) parts.faulty.members parts.reader_count tables.old.replicas.now tables.old.readers.now (sizes_of tables.old) }
        ensures parts { (result.system ≡ parts.system) × (result.signatures ≡ parts.signatures) × (result.faulty ≡ parts.faulty) }
        ensures lists { (tables.new.messages.now ≡ tables.old.messages.now) × (tables.new.lines.now ≡ tables.old.lines.now) }
        ensures tables { SameTables tables.old tables.new }
    {
        let Parts {
            system,
            signatures,
            faulty,
            reader_count,
        } = parts;
        let sizes = tables.sizes();
        let checked = Cluster::<S, P, K>::check(&system, &signatures, faulty, reader_count, sizes);
        let writer = Client::new::<S>(Phase::Idle, 0);
        if checked.is_err() {
            return Cluster {
                system,
                signatures,
                faulty,
                shut: true,
                writer,
                reader_places: 0,
                messages: FrontList::empty(0),
                lines: FrontList::empty(0),
                setting: PhantomData,
            };
        }
        fill(tables.replicas, encode_version(initial_version::<S>()));
        fill(
            tables.readers,
            Reader {
                client: writer,
                completed: None,
            },
        );
        Cluster {
            system,
            signatures,
            faulty,
            shut: false,
            writer,
            reader_places: reader_count,
            messages: FrontList::empty(sizes.messages),
            lines: FrontList::empty(sizes.lines),
            setting: PhantomData,
        }
    }
}
