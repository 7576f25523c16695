// The messages between clients and replicas.
ghost use Rattle.std.specs.Prelude.{◌≡◌};
ghost use Rattle.protocol.specs.Versions.{Computes};
ghost use Rattle.protocol.specs.Messages.{is_reply, replica_of, client_of, each_value};

use crate::version::Version;

/// A message: a request of a client (`Query`, `Store`) or a replica's reply (`Value`, `Ack`).
#[derive(Clone, Copy, Debug, PartialEq, Eq)]
pub enum Message<V> {
    Query {
        client: u32,
        op: u32,
    },
    Store {
        client: u32,
        op: u32,
        version: Version<V>,
    },
    Value {
        replica: u32,
        client: u32,
        op: u32,
        version: Version<V>,
    },
    Ack {
        replica: u32,
        client: u32,
        op: u32,
    },
}

impl<V> Message<V> {
    /// The message with what `f` makes of its value, if it has one, in the place of it.
    pub(crate) fn map<W, F: FnOnce(V) -> W>(self, f: F) -> Message<W>
        requires { F.IsAlwaysCallable f }
        ensures { (g : V → W) → Computes (F.post f) g → result ≡ each_value g self }
    {
        match self {
            Message::Query { client, op } => Message::Query { client, op },
            Message::Store {
                client,
                op,
                version,
            } => Message::Store {
                client,
                op,
                version: version.map(f),
            },
            Message::Value {
                replica,
                client,
                op,
                version,
            } => Message::Value {
                replica,
                client,
                op,
                version: version.map(f),
            },
            Message::Ack {
                replica,
                client,
                op,
            } => Message::Ack {
                replica,
                client,
                op,
            },
        }
    }
}

impl<V: Copy> Message<V> {
    /// Whether the message goes from a replica to a client.
    pub fn is_reply(self) -> bool
        ensures { result ≡ is_reply self }
    {
        matches!(self, Message::Value { .. } | Message::Ack { .. })
    }

    /// The replica that a reply comes from; 0 for a request, which comes from none.
    ///
    /// No `Option`: callers ask it of replies only, after `is_reply`, and would have to take it apart again.
    pub fn replica(self) -> u32
        ensures { result ≡ replica_of self }
    {
        match self {
            Message::Query { .. } | Message::Store { .. } => 0,
            Message::Value { replica, .. } | Message::Ack { replica, .. } => replica,
        }
    }

    /// The client that a request comes from, or that a reply goes to.
    pub fn client(self) -> u32
        ensures { result ≡ client_of self }
    {
        match self {
            Message::Query { client, .. } | Message::Store { client, .. } => client,
            Message::Value { client, .. } | Message::Ack { client, .. } => client,
        }
    }
}
