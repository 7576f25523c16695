// Random rows of the reader table.
ghost use Rattle.std.specs.Prelude.{◌<◌};

use crate::bytes::{random_bytes, random_row};
use crate::generator::Generator;
use cluster::reader::{Completed, Reader};
use protocol::client::{Client, Phase};
use replica_sets::replica_set::ReplicaSet;

/// A phase.
fn random_phase(generator: &mut Generator) -> Phase {
    match generator.below(3) {
        0 => Phase::Idle,
        1 => Phase::Querying,
        _ => Phase::Storing,
    }
}

/// An operation number, often one of the last.
fn random_op(generator: &mut Generator) -> u32 {
    match generator.below(4) {
        0 => 0,
        1 => 65_534,
        2 => 65_535,
        _ => generator.below(65_536),
    }
}

/// A completed read, or none.
fn random_completed(generator: &mut Generator) -> Option<Completed> {
    if generator.chance(2) {
        return None;
    }
    Some(Completed {
        op: generator.below(65_536),
        timestamp: generator.below(5),
        encoding: random_bytes(generator),
    })
}

/// The set's members below the number of replicas; once in so many times all its members.
pub(crate) fn mostly_below(
    generator: &mut Generator,
    once_in: u32,
    set: ReplicaSet,
    replicas: u32,
) -> ReplicaSet
    requires { 0 < once_in }
{
    if generator.chance(once_in) {
        set
    } else {
        set.intersection(ReplicaSet::first(replicas))
    }
}

/// A client as a reader's row holds it.
fn random_client(generator: &mut Generator, replicas: u32) -> Client {
    let phase = random_phase(generator);
    let op = random_op(generator);
    let heard = ReplicaSet::of_bits(generator.mask());
    Client {
        phase,
        op,
        heard: mostly_below(generator, 4, heard, replicas),
        best: random_row(generator),
    }
}

/// A reader's row.
pub(crate) fn random_reader_row(generator: &mut Generator, replicas: u32) -> Reader {
    Reader {
        client: random_client(generator, replicas),
        completed: random_completed(generator),
    }
}
