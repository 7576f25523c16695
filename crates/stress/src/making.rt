// The random parts of a cluster.
use crate::bytes::random_bytes;
use crate::generator::Generator;
use crate::trial::Trial;
use cluster::tables::TableSizes;
use quorums::quorum_system::QuorumSystem;
use replica_sets::replica_set::ReplicaSet;
use signatures::signatures::Signatures;

/// How many readers there are, now and then too few or too many.
pub(crate) fn random_reader_count(generator: &mut Generator) -> usize {
    if generator.chance(8) {
        generator.below(11) as usize
    } else {
        1 + generator.below(8) as usize
    }
}

/// The sizes with one of them wrong.
///
/// `random_passed` chooses a size by the same numbers, but what becomes of it differs with the size here: one function for both is no plainer.
fn random_misfit(generator: &mut Generator, mut sizes: TableSizes) -> TableSizes {
    match generator.below(4) {
        0 => sizes.replicas = sizes.replicas.saturating_add(1),
        1 => sizes.readers = sizes.readers.saturating_add(1),
        2 => sizes.messages = if generator.below(2) == 0 { 0 } else { 4097 },
        _ => sizes.lines = if generator.below(2) == 0 { 1 } else { 8193 },
    }
    sizes
}

/// The sizes of the tables for so many replicas and readers; now and then one of them is wrong.
pub(crate) fn random_sizes(
    generator: &mut Generator,
    replicas: usize,
    readers: usize,
) -> TableSizes {
    let most_places = if generator.chance(8) { 4096 } else { 64 };
    let sizes = TableSizes {
        replicas,
        readers,
        messages: 1 + generator.below(most_places) as usize,
        lines: 2 + generator.below(126) as usize,
    };
    if generator.chance(16) {
        random_misfit(generator, sizes)
    } else {
        sizes
    }
}

/// The faulty replicas, mostly a fault set.
pub(crate) fn random_faulty<P: QuorumSystem>(generator: &mut Generator, system: &P) -> ReplicaSet {
    let all = ReplicaSet::first(system.replicas());
    let mut faulty = ReplicaSet::of_bits(generator.mask()).intersection(all);
    for _ in 0..3 {
        if !system.is_fault_set(faulty) {
            faulty = faulty.intersection(ReplicaSet::of_bits(generator.word()));
        }
    }
    if system.is_fault_set(faulty) || generator.chance(2) {
        faulty
    } else {
        ReplicaSet::empty()
    }
}

/// Now and then the scheme signs something before the cluster is made.
pub(crate) fn sign_beforehand<K: Signatures>(trial: &mut Trial, signatures: &mut K) {
    if !trial.generator.chance(32) {
        return;
    }
    let timestamp = 1 + trial.generator.below(3);
    let encoding = random_bytes(&mut trial.generator);
    match signatures.sign(timestamp, encoding) {
        Some(tag) => {
            trial.digest.mix(1);
            trial.digest.mix(tag);
        }
        None => trial.digest.mix(0),
    }
}
