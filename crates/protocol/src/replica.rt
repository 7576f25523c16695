// What a replica does with a message.
ghost use Rattle.std.specs.Prelude.{◌≡◌};
ghost use Rattle.protocol.specs.Replicas.{answer, keep, newer};

use crate::encoded::{decode_version, encode_version};
use crate::message::Message;
use crate::version::{Version, is_genuine};
use encodings::encoding::Encoding;
use settings::setting::Setting;
use signatures::signatures::Signatures;

/// The version of the greater timestamp; of equals the one that is kept already.
pub fn newer_version<V: Copy>(kept: Version<V>, other: Version<V>) -> Version<V>
    ensures { result ≡ newer kept other }
{
    if kept.timestamp < other.timestamp {
        other
    } else {
        kept
    }
}

/// A correct replica's step: what it answers, or `None` for silence, and in `kept` the row that it keeps from then on.
///
/// A Query is answered by a Value of the version kept. A Store that isn't genuine is met by silence;
/// any other replaces the version kept if its timestamp is greater, and is acknowledged either way.
pub fn replica_step<S: Setting, K: Signatures>(
    signatures: &K,
    replica: u32,
    kept: &mut Version<Encoding>,
    message: Message<S>,
) -> Option<Message<S>>
    ensures answer { result ≡ answer S.kind (K.book signatures.now) replica kept.old message }
    ensures kept { kept.new ≡ keep S.kind (K.book signatures.now) kept.old message }
{
    match message {
        Message::Query { client, op } => Some(Message::Value {
            replica,
            client,
            op,
            version: decode_version(*kept),
        }),
        Message::Store {
            client,
            op,
            version,
        } => {
            if !is_genuine(signatures, version) {
                return None;
            }
            *kept = newer_version(*kept, encode_version(version));
            Some(Message::Ack {
                replica,
                client,
                op,
            })
        }
        Message::Value { .. } | Message::Ack { .. } => None,
    }
}
