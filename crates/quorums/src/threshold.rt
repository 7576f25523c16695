// The system in which any few replicas may be faulty together.
ghost use Rattle.std.specs.Prelude.{◌≡◌, ◌*◌, ◌<◌, true, if◌then◌else◌};
ghost use Rattle.quorums.specs.Refusals.{told, accepts};
ghost use Rattle.quorums.specs.Thresholds.{threshold, threshold_check};
ghost use Rattle.quorums.specs.ThresholdsLemmas.{threshold_lawful};

use crate::quorum_system::{MOST_REPLICAS, QuorumSystem};
use crate::refusal::Refusal;
use replica_sets::replica_set::ReplicaSet;

/// A number of replicas, of which any `faults` may be faulty together.
#[derive(Clone, Copy, Debug, PartialEq, Eq)]
pub struct Threshold {
    replicas: u32,
    faults: u32,
    ghost ok: { accepts (threshold_check replicas faults) ≡ true },
}

impl Threshold {
    /// Why `new` would not make the system as asked for: a number of replicas that is not from 1 to 32, or not above three times `faults`.
    pub fn check(replicas: u32, faults: u32) -> Result<(), Refusal>
        ensures { told result ≡ threshold_check replicas faults }
    {
        if !(1..=MOST_REPLICAS).contains(&replicas) {
            Err(Refusal::ReplicaCount)
        } else if replicas as u64 <= 3 * faults as u64 {
            Err(Refusal::FaultBound)
        } else {
            Ok(())
        }
    }

    /// The system as asked for; where `check` refuses it, one replica that is never faulty.
    pub fn new(replicas: u32, faults: u32) -> Threshold
        ensures replicas { result.replicas ≡ (if accepts (threshold_check replicas faults) then replicas else 1) }
        ensures faults { result.faults ≡ (if accepts (threshold_check replicas faults) then faults else 0) }
    {
        if Threshold::check(replicas, faults).is_err() {
            return Threshold {
                replicas: 1,
                faults: 0,
            };
        }
        Threshold { replicas, faults }
    }

    /// How many replicas may be faulty together.
    pub fn faults(&self) -> u32
        ensures { result ≡ self.now.faults }
    {
        self.faults
    }
}

impl QuorumSystem for Threshold {
    ghost quorums = { λ t. threshold t.replicas t.faults };

    ghost lawful = { λ t. threshold_lawful t.replicas t.faults t.ok };

    fn replicas(&self) -> u32 {
        self.replicas
    }

    fn is_quorum(&self, set: ReplicaSet) -> bool {
        set.is_below(self.replicas) && 2 * set.len() > self.replicas + self.faults
    }

    fn is_fault_set(&self, set: ReplicaSet) -> bool {
        set.is_below(self.replicas) && set.len() <= self.faults
    }
}
