// What a cluster shows of itself.
ghost use Rattle.std.specs.Prelude.{◌≡◌};

use crate::cluster::Cluster;
use crate::making::Parts;
use protocol::client::Client;
use replica_sets::replica_set::ReplicaSet;

impl<S, P, K> Cluster<S, P, K> {
    /// Whether the cluster was made in spite of a refusal.
    pub fn is_shut(&self) -> bool
        ensures { result ≡ self.now.shut }
    {
        self.shut
    }

    /// How many messages are in flight: so many rows of their table are in use.
    pub fn messages_in_flight(&self) -> usize
        ensures { result ≡ self.now.messages.used }
    {
        self.messages.used
    }

    /// How many lines the journal has: so many rows of its table are in use.
    pub fn journal_lines(&self) -> usize
        ensures { result ≡ self.now.lines.used }
    {
        self.lines.used
    }

    /// The writer.
    pub fn writer(&self) -> Client
        ensures { result ≡ self.now.writer }
    {
        self.writer
    }

    /// The faulty replicas.
    pub fn faulty(&self) -> ReplicaSet
        ensures { result ≡ self.now.faulty }
    {
        self.faulty
    }

    /// The quorum system, to look at.
    pub fn system(&self) -> &P
        ensures { result.now ≡ self.now.system }
    {
        &self.system
    }

    /// The signature scheme, to look at.
    pub fn signatures(&self) -> &K
        ensures { result.now ≡ self.now.signatures }
    {
        &self.signatures
    }

    /// Takes the cluster apart; where it was shut, it had no readers.
    pub fn into_parts(self) -> Parts<P, K>
        ensures system { result.system ≡ self.system }
        ensures signatures { result.signatures ≡ self.signatures }
        ensures faulty { result.faulty ≡ self.faulty }
        ensures readers { result.reader_count ≡ self.reader_places }
    {
        let Cluster {
            system,
            signatures,
            faulty,
            shut: _,
            writer: _,
            reader_places,
            messages: _,
            lines: _,
            setting: _,
        } = self;
        Parts {
            system,
            signatures,
            faulty,
            reader_count: reader_places,
        }
    }
}
