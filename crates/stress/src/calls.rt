// Random calls of a cluster.
use crate::bytes::random_setting;
use crate::forgeries::random_forgery;
use crate::generator::Generator;
use crate::rows::{Rows, count_of, scribble};
use crate::trial::Trial;
use atomicity::call::Call;
use atomicity::calling::make_call;
use cluster::cluster::Cluster;
use cluster::tables::TableSizes;
use quorums::quorum_system::QuorumSystem;
use settings::setting::Setting;
use signatures::signatures::Signatures;

/// The call's code in the digest, a number that the format of the digest has.
fn code_of<S>(call: &Call<S>) -> u32 {
    match call {
        Call::Write(_) => 1,
        Call::Read(_) => 2,
        Call::DeliverRequest { .. } => 3,
        Call::DeliverReply { .. } => 4,
        Call::ForgeReply(_) => 5,
        Call::DropMessage(_) => 6,
        Call::Collect(_) => 7,
    }
}

/// The number of a reader, mostly of one that there is.
fn random_reader(generator: &mut Generator, readers: usize) -> u32 {
    if generator.chance(16) {
        generator.below(11)
    } else {
        1 + generator.below(count_of(readers).max(1))
    }
}

/// The number of a message in flight, or the first number past them.
fn random_message(generator: &mut Generator, in_flight: usize) -> usize {
    generator.below(count_of(in_flight).saturating_add(1)) as usize
}

/// The number of a replica, mostly of one that there is.
fn random_replica(generator: &mut Generator, replicas: u32) -> u32 {
    if generator.chance(16) {
        generator.below(34)
    } else {
        generator.below(replicas.max(1))
    }
}

/// A call.
fn random_call<S: Setting, P: QuorumSystem, K>(
    generator: &mut Generator,
    cluster: &Cluster<S, P, K>,
    rows: &Rows,
) -> Call<S> {
    let in_flight = cluster.messages_in_flight();
    let readers = rows.readers.len();
    match generator.below(32) {
        0..=1 => Call::Write(random_setting(generator)),
        2..=5 => Call::Read(random_reader(generator, readers)),
        6..=14 => {
            let message = random_message(generator, in_flight);
            let replica = random_replica(generator, cluster.system().replicas());
            Call::DeliverRequest { message, replica }
        }
        15..=23 => Call::DeliverReply {
            message: random_message(generator, in_flight),
        },
        24..=26 => Call::ForgeReply(random_forgery(
            generator,
            cluster.faulty(),
            cluster.writer(),
            rows,
        )),
        27..=29 => Call::DropMessage(random_message(generator, in_flight)),
        _ => Call::Collect(random_reader(generator, readers)),
    }
}

/// How many rows of each table are passed: all, or now and then one less of one table.
fn random_passed(generator: &mut Generator, mut sizes: TableSizes) -> TableSizes {
    if generator.chance(64) {
        let size = match generator.below(4) {
            0 => &mut sizes.replicas,
            1 => &mut sizes.readers,
            2 => &mut sizes.messages,
            _ => &mut sizes.lines,
        };
        *size = size.saturating_sub(1);
    }
    sizes
}

/// A random call, with what an adversary does before it.
pub(crate) fn play_call<S: Setting, P: QuorumSystem, K: Signatures>(
    trial: &mut Trial,
    cluster: &mut Cluster<S, P, K>,
    rows: &mut Rows,
) {
    if trial.generator.chance(16) {
        scribble(
            &mut trial.generator,
            rows,
            cluster.system().replicas(),
            cluster.messages_in_flight(),
            cluster.journal_lines(),
        );
    }
    let passed = random_passed(&mut trial.generator, rows.sizes());
    let call = random_call(&mut trial.generator, cluster, rows);
    trial.digest.mix(code_of(&call));
    trial.note(make_call(cluster, &mut rows.first(passed), call));
}
