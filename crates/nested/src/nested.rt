// The system of groups of replicas: an outer system over the groups, and an inner system in each.
ghost use Rattle.std.specs.Prelude.{◌≡◌, ℕ, ◌*◌, ◌<◌, Bool, nat_le, if◌then◌else◌};
ghost use Rattle.replica_sets.specs.declared.replica_set.ReplicaSet.{ReplicaSet};
ghost use Rattle.quorums.specs.Refusals.{told};
ghost use Rattle.nested.specs.Nesting.{groups, nested_check, nested};
ghost use Rattle.nested.specs.Groups.{nested_lawful};

use quorums::quorum_system::{MOST_REPLICAS, QuorumSystem};
use quorums::refusal::Refusal;
use quorums::threshold::Threshold;
use replica_sets::replica_set::ReplicaSet;

/// Groups of replicas: `outer` is over the groups, and each group is an `inner`.
#[derive(Debug, PartialEq, Eq, Drop)]
pub struct Nested<O, I> {
    outer: O,
    inner: I,
}

impl<O: QuorumSystem, I: QuorumSystem> Nested<O, I> {
    /// Why the two systems would not be nested as asked for: more than 32 replicas in all.
    pub fn check(outer: &O, inner: &I) -> Result<(), Refusal>
        ensures { told result ≡ nested_check (O.QuorumSystem.quorums outer.now) (I.QuorumSystem.quorums inner.now) }
    {
        match size(outer, inner) {
            Some(_) => Ok(()),
            None => Err(Refusal::ReplicaCount),
        }
    }

    /// The system of groups; where `check` refuses it, it acts as one replica that is never faulty.
    pub fn new(outer: O, inner: I) -> Nested<O, I>
        ensures outer { result.outer ≡ outer }
        ensures inner { result.inner ≡ inner }
    {
        Nested { outer, inner }
    }

    /// The system over the groups.
    pub fn outer(&self) -> &O
        ensures { result.now ≡ self.now.outer }
    {
        &self.outer
    }

    /// The system in each group.
    pub fn inner(&self) -> &I
        ensures { result.now ≡ self.now.inner }
    {
        &self.inner
    }

    // The groups whose part of the set passes the test.
    fn groups_that<F: Fn(ReplicaSet) -> bool>(&self, set: ReplicaSet, test: F) -> ReplicaSet
        requires { F.IsAlwaysCallable test }
        ensures { (p : ℕ → Bool) → ((x : ReplicaSet) (r : Bool) → F.post test x r → r ≡ p x.members) → result.members ≡ groups (O.QuorumSystem.quorums self.now.outer).size (I.QuorumSystem.quorums self.now.inner).size p set.members }
    {
        let size = self.inner.replicas();
        let mut found = ReplicaSet::empty();
        for group in 0..self.outer.replicas() {
            if test(set.part(group * size, size)) {
                found = found.with(group);
            }
        }
        found
    }
}

// How many replicas the groups have in all, where they are at most 32.
fn size<O: QuorumSystem, I: QuorumSystem>(outer: &O, inner: &I) -> Option<u32>
    ensures { result ≡ (let n = (O.QuorumSystem.quorums outer.now).size * (I.QuorumSystem.quorums inner.now).size in if nat_le n 32 then Some n else None) }
{
    let all = outer.replicas() * inner.replicas();
    (all <= MOST_REPLICAS).then_some(all)
}

impl<O: QuorumSystem, I: QuorumSystem> QuorumSystem for Nested<O, I> {
    ghost quorums = { λ t. nested (O.QuorumSystem.quorums t.outer) (I.QuorumSystem.quorums t.inner) };

    ghost lawful = { λ t. nested_lawful (O.QuorumSystem.quorums t.outer) (I.QuorumSystem.quorums t.inner) (O.QuorumSystem.lawful t.outer) (I.QuorumSystem.lawful t.inner) };

    fn replicas(&self) -> u32 {
        size(&self.outer, &self.inner).unwrap_or(1)
    }

    fn is_quorum(&self, set: ReplicaSet) -> bool {
        match size(&self.outer, &self.inner) {
            Some(size) => {
                set.is_below(size)
                    && self
                        .outer
                        .is_quorum(self.groups_that(set, |part| self.inner.is_quorum(part)))
            }
            None => Threshold::new(1, 0).is_quorum(set),
        }
    }

    fn is_fault_set(&self, set: ReplicaSet) -> bool {
        match size(&self.outer, &self.inner) {
            Some(size) => {
                set.is_below(size)
                    && self.outer.is_fault_set(self.groups_that(
                        set,
                        |part| !self.inner.is_fault_set(part),
                    ))
            }
            None => Threshold::new(1, 0).is_fault_set(set),
        }
    }
}
