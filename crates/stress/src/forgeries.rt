// Random versions, and replies that are forged with them.
use crate::bytes::random_row;
use crate::generator::Generator;
use crate::rows::{Rows, count_of};
use cluster::reader::Reader;
use encodings::encoding::Encoding;
use protocol::client::Client;
use protocol::encoded::decode_version;
use protocol::message::Message;
use protocol::version::{Version, initial_version};
use replica_sets::replica_set::ReplicaSet;
use settings::setting::Setting;

/// A version that a replica keeps, of `later` timestamps more.
fn random_kept_version<S: Setting>(
    generator: &mut Generator,
    replicas: &[Version<Encoding>],
    later: u32,
) -> Version<S> {
    let Some(place) = generator.place(replicas.len()) else {
        return initial_version();
    };
    let mut row = replicas[place];
    row.timestamp = row.timestamp.wrapping_add(later);
    decode_version(row)
}

/// A version: the initial one, a random one that is seldom genuine, or one that a replica keeps.
fn random_version<S: Setting>(
    generator: &mut Generator,
    replicas: &[Version<Encoding>],
) -> Version<S> {
    match generator.below(4) {
        0 => initial_version(),
        1 => decode_version(random_row(generator)),
        2 => random_kept_version(generator, replicas, 0),
        _ => random_kept_version(generator, replicas, 1),
    }
}

/// The first faulty replica from `start` on, and round again; `start` itself where none is faulty.
fn faulty_from(faulty: ReplicaSet, start: u32) -> u32 {
    (0..32)
        .map(|step| start.wrapping_add(step) % 32)
        .find(|replica| faulty.contains(*replica))
        .unwrap_or(start)
}

/// The replica that a forged message comes from, mostly a faulty one.
fn random_forger(generator: &mut Generator, faulty: ReplicaSet) -> u32 {
    if generator.chance(4) {
        generator.below(34)
    } else {
        faulty_from(faulty, generator.below(32))
    }
}

/// The operation of a client; 1 where there is no such client.
fn op_of(writer: Client, readers: &[Reader], client: u32) -> u32 {
    match client.checked_sub(1) {
        Some(place) => readers
            .get(place as usize)
            .map_or(1, |reader| reader.client.op),
        None => writer.op,
    }
}

/// The operation that a forged message is for, mostly the client's own.
fn random_forged_op(
    generator: &mut Generator,
    writer: Client,
    readers: &[Reader],
    client: u32,
) -> u32 {
    if generator.chance(4) {
        generator.below(4)
    } else {
        op_of(writer, readers, client)
    }
}

/// A forged message.
pub(crate) fn random_forgery<S: Setting>(
    generator: &mut Generator,
    faulty: ReplicaSet,
    writer: Client,
    rows: &Rows,
) -> Message<S> {
    let replicas = rows.replicas.as_slice();
    let readers = rows.readers.as_slice();
    let replica = random_forger(generator, faulty);
    let client = generator.below(count_of(readers.len()).saturating_add(2));
    let op = random_forged_op(generator, writer, readers, client);
    match generator.below(8) {
        0 => Message::Query { client, op },
        1 => Message::Store {
            client,
            op,
            version: random_version(generator, replicas),
        },
        2..=4 => Message::Ack {
            replica,
            client,
            op,
        },
        _ => Message::Value {
            replica,
            client,
            op,
            version: random_version(generator, replicas),
        },
    }
}
