// Questions about listed sets.
ghost use Rattle.std.specs.Prelude.{◌≡◌, ◌≤◌, length, take};
ghost use Rattle.replica_sets.specs.Sets.{within, below, all, outside};
ghost use Rattle.fail_prone.specs.Listed.{some_listed, each_listed, hold};

use crate::fail_prone::MAX_LISTED;
use replica_sets::replica_set::ReplicaSet;

// Whether the set is a part of a listed set.
pub(crate) fn is_inside(set: ReplicaSet, listed: &[ReplicaSet]) -> bool
    ensures { result ≡ some_listed (within set.members) listed.now }
{
    listed.iter().any(|s| set.is_subset(*s))
}

// Whether the set has all replicas below `count`.
pub(crate) fn has_all(set: ReplicaSet, count: u32) -> bool
    requires { count ≤ 32 }
    ensures { result ≡ within (all count) set.members }
{
    ReplicaSet::first(count).is_subset(set)
}

// Whether the set has all replicas below `count` outside some listed set.
pub(crate) fn completes(set: ReplicaSet, count: u32, listed: &[ReplicaSet]) -> bool
    requires { count ≤ 32 }
    ensures { result ≡ some_listed (λ s. within (outside count s) set.members) listed.now }
{
    listed.iter().any(|s| s.outside(count).is_subset(set))
}

// Whether one listed set holds together with `base` all of `whole`.
#[tactic(auto, unfolding(crate::specs::Listed::hold))]
fn one_holds(whole: ReplicaSet, base: ReplicaSet, listed: &[ReplicaSet]) -> bool
    ensures { result ≡ hold 1 whole.members base.members listed.now }
{
    listed.iter().any(|s| whole.is_subset(base.union(*s)))
}

// Whether two listed sets, repeats allowed, hold together with `base` all of `whole`.
//
// One function for each number of sets: a recursion through a closure was tried, and what `any` gives then stayed open.
#[tactic(auto, unfolding(crate::specs::Listed::hold))]
fn two_hold(whole: ReplicaSet, base: ReplicaSet, listed: &[ReplicaSet]) -> bool
    ensures { result ≡ hold 2 whole.members base.members listed.now }
{
    listed
        .iter()
        .any(|s| one_holds(whole, base.union(*s), listed))
}

// Whether three listed sets, repeats allowed, hold together with `base` all of `whole`.
pub(crate) fn three_hold(whole: ReplicaSet, base: ReplicaSet, listed: &[ReplicaSet]) -> bool
    ensures { result ≡ hold 3 whole.members base.members listed.now }
{
    listed
        .iter()
        .any(|s| two_hold(whole, base.union(*s), listed))
}

// Whether each listed set has members below `count` only.
pub(crate) fn are_below(count: u32, listed: &[ReplicaSet]) -> bool
    ensures { result ≡ each_listed (below count) listed.now }
{
    listed.iter().all(|s| s.is_below(count))
}

// The listed sets, and empty ones after them.
pub(crate) fn padded(listed: &[ReplicaSet]) -> [ReplicaSet; MAX_LISTED]
    requires { length listed.now ≤ 16 }
    ensures { take (length listed.now) result ≡ listed.now }
{
    let mut sets = [ReplicaSet::empty(); MAX_LISTED];
    sets[..listed.len()].copy_from_slice(listed);
    sets
}
