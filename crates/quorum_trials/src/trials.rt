// What every quorum system keeps, as code that is generic over them.
ghost use Rattle.std.specs.Prelude.{◌≡◌, true};
ghost use Rattle.quorum_trials.specs.Trials.{survived, on_trial, Share};

use quorums::quorum_system::QuorumSystem;
use replica_sets::replica_set::ReplicaSet;

/// Whether the members may be faulty together and the other replicas are a quorum: so for every fault set.
pub fn survives<P: QuorumSystem>(system: &P, faulty: ReplicaSet) -> bool
    ensures answer { result ≡ survived (P.quorums system.now) faulty.members }
    ensures each_fault_set { result ≡ (P.quorums system.now).fault faulty.members }
{
    system.is_fault_set(faulty) && system.is_quorum(faulty.outside(system.replicas()))
}

/// Whether two quorums share a replica outside a fault set: so for every two quorums and every fault set, and for no other sets.
pub fn share_correct<P: QuorumSystem>(
    system: &P,
    first: ReplicaSet,
    second: ReplicaSet,
    faulty: ReplicaSet,
) -> bool
    ensures answer { result ≡ on_trial (P.quorums system.now) first.members second.members faulty.members }
    ensures shared { result ≡ true → Share (P.quorums system.now) first.members second.members faulty.members }
{
    are_on_trial(system, first, second, faulty)
        && !first.intersection(second).difference(faulty).is_empty()
}

// Whether two sets are quorums, and the third is a fault set.
fn are_on_trial<P: QuorumSystem>(
    system: &P,
    first: ReplicaSet,
    second: ReplicaSet,
    faulty: ReplicaSet,
) -> bool
    ensures { result ≡ on_trial (P.quorums system.now) first.members second.members faulty.members }
{
    system.is_quorum(first) && system.is_quorum(second) && system.is_fault_set(faulty)
}
