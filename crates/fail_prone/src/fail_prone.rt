// The system whose fault sets are listed.
ghost use Rattle.std.specs.Prelude.{◌≡◌, ◌<◌, ◌≤◌, true, [], take, if◌then◌else◌};
ghost use Rattle.quorums.specs.Refusals.{told, accepts};
ghost use Rattle.quorums.specs.Thresholds.{threshold};
ghost use Rattle.fail_prone.specs.Listed.{listed_system, three_hold_all, listed_check, NoSystemKeepsTheLaws};
ghost use Rattle.fail_prone.specs.Accepted.{accepted_least, accepted_most, accepted_apart};
ghost use Rattle.fail_prone.specs.ListedLemmas.{listed_lawful};

use crate::lists;
use quorums::quorum_system::{MOST_REPLICAS, QuorumSystem};
use quorums::refusal::Refusal;
use replica_sets::replica_set::ReplicaSet;

/// The most sets that can be listed.
pub const MAX_LISTED: usize = 16;

/// Replicas with listed fault sets: the replicas of any one listed set may be faulty together.
#[derive(Clone, Copy, Debug, PartialEq, Eq)]
pub struct FailProne {
    replicas: u32,
    // The first `count` of `sets` are listed: a buffer with a length, so that a system is Copy and needs no heap (an ArrayVec is not Copy).
    count: usize,
    sets: [ReplicaSet; MAX_LISTED],
    ghost few: { count ≤ 16 },
    ghost ok: { accepts (listed_check replicas (take count sets)) ≡ true },
}

/// Whether three listed sets, repeats allowed, hold all replicas: then no quorum system has each of them as a fault set.
pub fn three_hold_all(replicas: u32, listed: &[ReplicaSet]) -> bool
    ensures answer { result ≡ three_hold_all replicas listed.now }
    ensures impossible { result ≡ true → NoSystemKeepsTheLaws replicas listed.now }
{
    replicas <= MOST_REPLICAS
        && lists::three_hold(ReplicaSet::first(replicas), ReplicaSet::empty(), listed)
}

impl FailProne {
    /// Why `new` would not make the system as asked for: a number of replicas that is not from 1 to 32,
    /// more than 16 sets or one with a replica that there is not, or three sets that hold all replicas.
    pub fn check(replicas: u32, listed: &[ReplicaSet]) -> Result<(), Refusal>
        ensures { told result ≡ listed_check replicas listed.now }
    {
        if !(1..=MOST_REPLICAS).contains(&replicas) {
            Err(Refusal::ReplicaCount)
        } else if listed.len() > MAX_LISTED || !lists::are_below(replicas, listed) {
            Err(Refusal::ListedSets)
        } else if three_hold_all(replicas, listed) {
            Err(Refusal::FaultBound)
        } else {
            Ok(())
        }
    }

    /// The system as asked for; where `check` refuses it, one replica that is never faulty.
    pub fn new(replicas: u32, listed: &[ReplicaSet]) -> FailProne
        ensures replicas { result.replicas ≡ (if accepts (listed_check replicas listed.now) then replicas else 1) }
        ensures listed { take result.count result.sets ≡ (if accepts (listed_check replicas listed.now) then listed.now else []) }
        ensures system { listed_system result.replicas (take result.count result.sets) ≡ (if accepts (listed_check replicas listed.now) then listed_system replicas listed.now else threshold 1 0) }
    {
        if FailProne::check(replicas, listed).is_err() {
            return FailProne {
                replicas: 1,
                count: 0,
                sets: lists::padded(&[]),
            };
        }
        FailProne {
            replicas,
            count: listed.len(),
            sets: lists::padded(listed),
        }
    }

    /// The listed sets.
    pub fn listed(&self) -> &[ReplicaSet]
        ensures { result.now ≡ take self.now.count self.now.sets }
    {
        &self.sets[0..self.count]
    }
}

impl QuorumSystem for FailProne {
    ghost quorums = { λ t. listed_system t.replicas (take t.count t.sets) };

    ghost lawful = { λ t.
        let n = t.replicas in
        let xs = take t.count t.sets in
        listed_lawful n xs (accepted_least n xs t.ok) (accepted_most n xs t.ok) (accepted_apart n xs t.ok) };

    fn replicas(&self) -> u32 {
        self.replicas
    }

    fn is_quorum(&self, set: ReplicaSet) -> bool {
        set.is_below(self.replicas)
            && (lists::has_all(set, self.replicas)
                || lists::completes(set, self.replicas, self.listed()))
    }

    fn is_fault_set(&self, set: ReplicaSet) -> bool {
        set.is_below(self.replicas) && (set.is_empty() || lists::is_inside(set, self.listed()))
    }
}
