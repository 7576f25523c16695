// Random quorum systems.
use crate::generator::Generator;
use crate::readers::mostly_below;
use crate::trial::Trial;
use fail_prone::fail_prone::FailProne;
use nested::nested::Nested;
use quorums::refusal::Refusal;
use quorums::threshold::Threshold;
use replica_sets::replica_set::ReplicaSet;

/// The most sets that are listed, one more than are allowed.
const MOST_SETS: usize = 17;

/// A quorum system of one of the three sorts.
#[derive(Drop)]
pub(crate) enum System {
    Threshold(Threshold),
    Listed(FailProne),
    Groups(Nested<Threshold, Threshold>),
}

/// The number of a refusal.
fn number_of(refusal: Refusal) -> u32 {
    u32::from(refusal.code())
}

/// A threshold that is checked and then made.
fn checked_threshold(trial: &mut Trial, replicas: u32, faults: u32) -> Threshold {
    trial.note_check(Threshold::check(replicas, faults).map_err(number_of));
    Threshold::new(replicas, faults)
}

/// A threshold of so many replicas; where there are any, not too many may be faulty.
fn random_threshold(trial: &mut Trial, replicas: u32) -> Threshold {
    let faults = trial.generator.below(replicas / 3 + 1);
    checked_threshold(trial, replicas, faults)
}

/// A set to be listed, mostly of replicas that there are.
fn random_set(generator: &mut Generator, replicas: u32) -> ReplicaSet {
    let mask = generator.mask();
    let set = ReplicaSet::of_bits(mask & generator.word());
    mostly_below(generator, 8, set, replicas)
}

/// A system of so many replicas and listed sets, which are written into `sets`.
fn checked_listed(trial: &mut Trial, replicas: u32, sets: &mut [ReplicaSet]) -> FailProne {
    for set in sets.iter_mut() {
        *set = random_set(&mut trial.generator, replicas);
    }
    trial.note_check(FailProne::check(replicas, sets).map_err(number_of));
    FailProne::new(replicas, sets)
}

/// A system of listed fault sets.
fn random_listed(trial: &mut Trial) -> FailProne {
    let replicas = trial.generator.below(34);
    let count = if trial.generator.chance(16) {
        MOST_SETS
    } else {
        trial.generator.below(5) as usize
    };
    let mut sets = [ReplicaSet::empty(); MOST_SETS];
    checked_listed(trial, replicas, &mut sets[..count])
}

/// A system of groups.
fn random_groups(trial: &mut Trial) -> Nested<Threshold, Threshold> {
    let groups = 1 + trial.generator.below(5);
    let group_faults = trial.generator.below(2);
    let replicas = 1 + trial.generator.below(8);
    let faults = trial.generator.below(3);
    let outer = checked_threshold(trial, groups, group_faults);
    let inner = checked_threshold(trial, replicas, faults);
    trial.note_check(Nested::check(&outer, &inner).map_err(number_of));
    Nested::new(outer, inner)
}

/// A quorum system, checked and then made in spite of a refusal.
pub(crate) fn random_system(trial: &mut Trial) -> System {
    match trial.generator.below(4) {
        0 => {
            let replicas = trial.generator.below(34);
            System::Threshold(random_threshold(trial, replicas))
        }
        1 => {
            let replicas = 1 + trial.generator.below(5);
            System::Threshold(random_threshold(trial, replicas))
        }
        2 => System::Listed(random_listed(trial)),
        _ => System::Groups(random_groups(trial)),
    }
}
