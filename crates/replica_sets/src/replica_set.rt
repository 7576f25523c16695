// A set of replicas: numbers below 32, one bit each.
ghost use Rattle.std.specs.Prelude.{◌≡◌, ℕ, ◌+◌, ◌/◌, ◌%◌, ◌^◌, ◌<◌, ◌≤◌, false, not, ◌&&◌, ◌||◌, Decides, ◌==◌, bit_or, nat_lt};
ghost use Rattle.replica_sets.specs.Sets.{has, Within, within, Below, below, all, common, with_member, outside, size_of};

// How many replicas a set can hold.
const PLACES: u32 = 32;

/// A set of replicas, as the mask of its members' numbers.
#[derive(Clone, Copy, Debug, PartialEq, Eq)]
pub struct ReplicaSet {
    members: u32,
}

impl ReplicaSet {
    /// The set with no member.
    pub fn empty() -> ReplicaSet
        ensures { result ≡ record { members = 0 } }
    {
        ReplicaSet { members: 0 }
    }

    /// The set whose members are the places of the mask's set bits.
    pub fn of_bits(members: u32) -> ReplicaSet
        ensures { result ≡ record { members = members } }
    {
        ReplicaSet { members }
    }

    /// The mask whose set bits are at the members' places.
    pub fn bits(self) -> u32
        ensures { result ≡ self.members }
    {
        self.members
    }

    /// The replicas below `count`; all 32 where `count` is larger.
    pub fn first(count: u32) -> ReplicaSet
        ensures bits { count ≤ 32 → result.members ≡ all count }
        ensures each { (i : ℕ) → has result.members i ≡ (nat_lt i count && nat_lt i 32) }
    {
        if count < PLACES {
            ReplicaSet::of_bits((1 << count) - 1)
        } else {
            ReplicaSet::of_bits(u32::MAX)
        }
    }

    /// Whether the replica is a member.
    #[tactic(auto, unfolding(crate::specs::Sets::has))]
    pub fn contains(self, replica: u32) -> bool
        ensures { result ≡ has self.members replica }
    {
        self.from(replica).members % 2 == 1
    }

    /// The set with the replica as a member too; a replica past 31 is not taken in.
    pub fn with(self, replica: u32) -> ReplicaSet
        ensures bits { result.members ≡ with_member self.members replica }
        ensures each { (i : ℕ) → has result.members i ≡ (has self.members i || (i == replica && nat_lt i 32)) }
    {
        if replica < PLACES {
            ReplicaSet {
                members: self.members | 1 << replica,
            }
        } else {
            self
        }
    }

    /// The members of both sets.
    #[tactic(auto, using(crate::proofs::Members::has_and))]
    pub fn intersection(self, other: ReplicaSet) -> ReplicaSet
        ensures bits { result.members ≡ common self.members other.members }
        ensures each { (i : ℕ) → has result.members i ≡ (has self.members i && has other.members i) }
    {
        ReplicaSet {
            members: self.members & other.members,
        }
    }

    /// The members of either set.
    #[tactic(auto, using(crate::proofs::Members::has_or))]
    pub fn union(self, other: ReplicaSet) -> ReplicaSet
        ensures bits { result.members ≡ bit_or self.members other.members }
        ensures each { (i : ℕ) → has result.members i ≡ (has self.members i || has other.members i) }
    {
        ReplicaSet {
            members: self.members | other.members,
        }
    }

    /// The members that are not in the other set.
    #[tactic(auto, using(crate::proofs::Members::less))]
    pub fn difference(self, other: ReplicaSet) -> ReplicaSet
        ensures { (i : ℕ) → has result.members i ≡ (has self.members i && not (has other.members i)) }
    {
        ReplicaSet {
            members: self.members & !other.members,
        }
    }

    /// The replicas below `count` that are no members; all that are no members where `count` is past 32.
    pub fn outside(self, count: u32) -> ReplicaSet
        ensures bits { count ≤ 32 → result.members ≡ outside count self.members }
        ensures each { (i : ℕ) → has result.members i ≡ ((nat_lt i count && nat_lt i 32) && not (has self.members i)) }
    {
        ReplicaSet::first(count).difference(self)
    }

    /// Whether each member is in the other set.
    #[tactic(auto, using(crate::proofs::Members::decides_within))]
    pub fn is_subset(self, other: ReplicaSet) -> bool
        ensures bits { result ≡ within self.members other.members }
        ensures each { Decides result (Within self.members other.members) }
    {
        self.intersection(other) == self
    }

    /// The members from `start` on, `len` places, counted from 0.
    pub fn part(self, start: u32, len: u32) -> ReplicaSet
        ensures bits { result.members ≡ self.members / 2 ^ start % 2 ^ len }
        ensures each { (i : ℕ) → has result.members i ≡ (nat_lt i len && has self.members (start + i)) }
    {
        self.from(start).intersection(ReplicaSet::first(len))
    }

    /// Whether each member is below `count`.
    #[tactic(auto, using(crate::proofs::Members::shift_zero, crate::proofs::Members::decides_below))]
    pub fn is_below(self, count: u32) -> bool
        ensures bits { result ≡ below count self.members }
        ensures each { Decides result (Below count self.members) }
    {
        self.from(count).is_empty()
    }

    /// Whether there is no member.
    #[tactic(auto, using(crate::proofs::Members::decides_none))]
    pub fn is_empty(self) -> bool
        ensures bits { result ≡ (self.members == 0) }
        ensures each { Decides result ((i : ℕ) → has self.members i ≡ false) }
    {
        self == ReplicaSet::empty()
    }

    /// How many members there are.
    #[tactic(auto, using(crate::proofs::Members::ones_count))]
    pub fn len(self) -> u32
        ensures counted { result ≡ size_of self.members }
        ensures few { result ≤ 32 }
    {
        self.bits().count_ones()
    }

    // The members from `place` on, counted from 0.
    #[tactic(auto, using(crate::proofs::Members::past_last))]
    fn from(self, place: u32) -> ReplicaSet
        ensures { result.members ≡ self.members / 2 ^ place }
    {
        ReplicaSet {
            members: self.members.unbounded_shr(place),
        }
    }
}
