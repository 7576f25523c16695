// What a client does with a message.
ghost use Rattle.std.specs.Prelude.{◌≡◌, Some};
ghost use Rattle.protocol.specs.Clients.{client, initial_row, is_idle, awaits, value_heard, ack_heard, react, reply_word};

use crate::encoded::encode_version;
use crate::message::Message;
use crate::replica::newer_version;
use crate::version::{Version, initial_version, is_genuine};
use encodings::encoding::Encoding;
use quorums::quorum_system::QuorumSystem;
use replica_sets::replica_set::ReplicaSet;
use settings::setting::Setting;
use signatures::signatures::Signatures;
use std::fmt;

/// Where a client stands: no operation open, collecting values, or having a version stored.
#[derive(Clone, Copy, Debug, PartialEq, Eq)]
pub enum Phase {
    Idle,
    Querying,
    Storing,
}

/// What a reply came to.
#[derive(Clone, Copy, Debug, PartialEq, Eq)]
pub enum Reply {
    /// It counts, and the phase goes on.
    Heard,
    /// It doesn't count, and nothing changes.
    Ignored,
    /// It ends a read's querying: the best version is to be stored.
    Turned,
    /// It ends the operation.
    Finished,
}

/// A client: its phase, the number of its latest operation, the replicas heard in this phase, and a read's best version so far.
#[derive(Clone, Copy, Debug, PartialEq, Eq)]
pub struct Client {
    pub phase: Phase,
    pub op: u32,
    pub heard: ReplicaSet,
    pub best: Version<Encoding>,
}

impl fmt::Display for Reply {
    ghost output = { λ r. Some (reply_word r) };

    fn fmt<W: fmt::Write>(&self, f: &mut fmt::Formatter<W>) -> fmt::Result {
        f.write_str(match self {
            Reply::Heard => "heard",
            Reply::Ignored => "ignored",
            Reply::Turned => "turned",
            Reply::Finished => "finished",
        })
    }
}

impl Phase {
    /// Whether no operation is open.
    pub fn is_idle(self) -> bool
        ensures { result ≡ is_idle self }
    {
        self == Phase::Idle
    }
}

impl Client {
    /// A client in a phase of the operation `op`, with nothing heard and the initial version as its best.
    ///
    /// It is idle after `op` operations; only a read has another version as its best later.
    pub fn new<S: Setting>(phase: Phase, op: u32) -> Client
        ensures { result ≡ client phase op 0 (initial_row S.kind) }
    {
        Client {
            phase,
            op,
            heard: ReplicaSet::empty(),
            best: encode_version(initial_version::<S>()),
        }
    }

    /// Whether a reply of the replica to the operation `op` is still waited for.
    fn awaits(self, replica: u32, op: u32) -> bool
        ensures { result ≡ awaits self replica op }
    {
        op == self.op && !self.heard.contains(replica)
    }

    /// Counts a replica's version; where the replicas heard are a quorum, the best version is to be stored next.
    fn hear_value<P: QuorumSystem>(
        &mut self,
        system: &P,
        replica: u32,
        version: Version<Encoding>,
    ) -> Reply
        ensures { value_heard (P.quorums system.now).quorum self.old replica version ≡ (result, self.new) }
    {
        self.best = newer_version(self.best, version);
        let answered = self.heard.with(replica);
        if system.is_quorum(answered) {
            self.phase = Phase::Storing;
            self.heard = ReplicaSet::empty();
            Reply::Turned
        } else {
            self.heard = answered;
            Reply::Heard
        }
    }

    /// Counts a replica's acknowledgement; where the replicas heard are a quorum, the operation is finished.
    fn hear_ack<S: Setting, P: QuorumSystem>(&mut self, system: &P, replica: u32) -> Reply
        ensures { ack_heard S.kind (P.quorums system.now).quorum self.old replica ≡ (result, self.new) }
    {
        let acknowledged = self.heard.with(replica);
        if system.is_quorum(acknowledged) {
            *self = Client::new::<S>(Phase::Idle, self.op);
            Reply::Finished
        } else {
            self.heard = acknowledged;
            Reply::Heard
        }
    }

    /// A client's step: what the message came to, and in `self` the client afterwards.
    ///
    /// A Value counts while querying if its operation agrees, its replica is unheard and its version is genuine;
    /// an Ack counts while storing if its operation agrees and its replica is unheard. Everything else is ignored.
    pub fn react<S: Setting, P: QuorumSystem, K: Signatures>(
        &mut self,
        system: &P,
        signatures: &K,
        message: Message<S>,
    ) -> Reply
        ensures { react S.kind (P.quorums system.now).quorum (K.book signatures.now) self.old message ≡ (result, self.new) }
    {
        match (self.phase, message) {
            (
                Phase::Querying,
                Message::Value {
                    replica,
                    op,
                    version,
                    ..
                },
            ) if self.awaits(replica, op) && is_genuine(signatures, version) => {
                self.hear_value(system, replica, encode_version(version))
            }
            (Phase::Storing, Message::Ack { replica, op, .. }) if self.awaits(replica, op) =>
                self.hear_ack::<S, P>(system, replica),
            _ => Reply::Ignored,
        }
    }
}
