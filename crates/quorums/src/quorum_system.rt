// What every quorum system answers, and the laws that it keeps.
ghost use Rattle.std.specs.Prelude.{◌≡◌};
ghost use Rattle.quorums.specs.Systems.{Quorums, QuorumLaws};

use replica_sets::replica_set::ReplicaSet;

/// The most replicas that a quorum system can have.
pub const MOST_REPLICAS: u32 = 32;

/// A number of replicas, with the sets of them that are quorums and those that may be faulty together.
pub trait QuorumSystem {
    ghost quorums: { Self → Quorums };

    /// How many replicas there are: 1 to 32.
    fn replicas(&self) -> u32
        ensures { result ≡ (quorums self.now).size };

    /// Whether the set is a quorum.
    fn is_quorum(&self, set: ReplicaSet) -> bool
        ensures { result ≡ (quorums self.now).quorum set.members };

    /// Whether the members of the set may be faulty together.
    fn is_fault_set(&self, set: ReplicaSet) -> bool
        ensures { result ≡ (quorums self.now).fault set.members };

    ghost lawful: { (p : Self) → QuorumLaws (quorums p) };
}
