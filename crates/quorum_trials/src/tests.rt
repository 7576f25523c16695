// The systems on examples.
use crate::trials::{share_correct, survives};
use fail_prone::fail_prone::FailProne;
use nested::nested::Nested;
use quorums::quorum_system::QuorumSystem;
use quorums::refusal::Refusal;
use quorums::threshold::Threshold;
use replica_sets::replica_set::ReplicaSet;

// A set, whether it is a quorum, and whether it is a fault set.
type Row = (u32, bool, bool);

// One replica that is never faulty.
const ALONE: [Row; 4] = [
    (0, false, true),
    (1, true, false),
    (2, false, false),
    (3, false, false),
];

// Of four replicas any one may be faulty.
const FOUR: [Row; 6] = [
    (0b0000, false, true),
    (0b0100, false, true),
    (0b0011, false, false),
    (0b1011, true, false),
    (0b1111, true, false),
    (0b11111, false, false),
];

// Of four replicas 0 and 1 may be faulty together, or 2 alone.
const LISTED: [Row; 6] = [
    (0b0000, false, true),
    (0b0011, false, true),
    (0b0101, false, false),
    (0b1000, false, false),
    (0b1100, true, false),
    (0b0111, false, false),
];

// Four groups of four: a whole group and one replica of each other group may be faulty together.
const SQUARE: [Row; 4] = [
    (0b0001_0001_0001_1111, false, true),
    (0b0001_0001_0011_1111, false, false),
    (0b0111_0111_0111_0000, true, false),
    (0b0111_0111_0011_0011, false, false),
];

fn answers<P: QuorumSystem>(system: &P, row: Row) -> bool {
    let set = ReplicaSet::of_bits(row.0);
    system.is_quorum(set) == row.1 && system.is_fault_set(set) == row.2
}

// Whether the system answers as the rows say; its replicas outside a fault set, and two quorums, keep their laws.
fn agrees<P: QuorumSystem>(system: &P, replicas: u32, rows: &[Row]) -> bool {
    for row in rows {
        let set = ReplicaSet::of_bits(row.0);
        if !answers(system, *row)
            || survives(system, set) != row.2
            || share_correct(system, set, set, ReplicaSet::empty()) != row.1
        {
            return false;
        }
    }
    system.replicas() == replicas
}

#[test]
fn thresholds(rt: HostRuntime) {
    for (replicas, faults, told) in [
        (4, 1, Ok(())),
        (3, 1, Err(3)),
        (32, 10, Ok(())),
        (32, 11, Err(3)),
        (0, 0, Err(1)),
        (33, 0, Err(1)),
        (u32::MAX, u32::MAX, Err(1)),
        (32, u32::MAX, Err(3)),
    ] {
        assert_eq!(rt;
            Threshold::check(replicas, faults).map_err(Refusal::code),
            told
        );
    }
    assert!(rt; agrees(&Threshold::new(4, 1), 4, &FOUR));
    assert!(rt; agrees(&Threshold::new(3, 1), 1, &ALONE));
}

#[test]
fn lists(rt: HostRuntime) {
    let pair = ReplicaSet::of_bits(0b0011);
    let third = ReplicaSet::of_bits(0b0100);
    let all = [pair, third, ReplicaSet::of_bits(0b1000)];
    assert_eq!(rt; FailProne::check(4, &all).map_err(Refusal::code), Err(3));
    assert_eq!(rt; FailProne::check(4, &[pair, third]), Ok(()));
    assert_eq!(rt;
        FailProne::check(2, &[third]).map_err(Refusal::code),
        Err(2)
    );
    assert_eq!(rt; FailProne::check(4, &[third; 16]), Ok(()));
    assert_eq!(rt;
        FailProne::check(4, &[third; 17]).map_err(Refusal::code),
        Err(2)
    );
    assert_eq!(rt; FailProne::check(33, &[]).map_err(Refusal::code), Err(1));
    assert!(rt; agrees(&FailProne::new(4, &[pair, third]), 4, &LISTED));
    assert!(rt; agrees(&FailProne::new(4, &all), 1, &ALONE));
}

#[test]
fn groups(rt: HostRuntime) {
    let four = Threshold::new(4, 1);
    let six = Threshold::new(6, 1);
    assert_eq!(rt; Nested::<Threshold, Threshold>::check(&four, &four), Ok(()));
    assert_eq!(rt;
        Nested::<Threshold, Threshold>::check(&six, &six).map_err(Refusal::code),
        Err(1)
    );
    assert!(rt; agrees(&Nested::new(four, four), 16, &SQUARE));
    assert!(rt; agrees(&Nested::new(six, six), 1, &ALONE));
    let listed = FailProne::new(1, &[]);
    assert!(rt; agrees(&Nested::new(Nested::new(four, listed), four), 16, &SQUARE));
}
