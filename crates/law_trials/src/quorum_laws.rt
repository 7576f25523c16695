// What every quorum system keeps, as code that is generic over them.
ghost use Rattle.std.specs.Prelude.{◌≡◌, true};
ghost use Rattle.replica_sets.specs.Sets.{Below};

use quorums::quorum_system::QuorumSystem;
use replica_sets::replica_set::ReplicaSet;

/// Whether each member of a quorum or of a fault set is a replica of the system: so for every set.
pub fn is_placed<P: QuorumSystem>(system: &P, set: ReplicaSet) -> bool
    ensures told { result ≡ true }
    ensures quorum { (P.quorums system.now).quorum set.members ≡ true → Below (P.quorums system.now).size set.members }
    ensures fault { (P.quorums system.now).fault set.members ≡ true → Below (P.quorums system.now).size set.members }
{
    if system.is_quorum(set) {
        return set.is_below(system.replicas());
    }
    if system.is_fault_set(set) {
        return set.is_below(system.replicas());
    }
    true
}
