// Which replicas may be faulty together, and which sets of them decide.
use fail_prone::fail_prone::FailProne;
use nested::nested::Nested;
use quorums::quorum_system::QuorumSystem;
use quorums::threshold::Threshold;
use replica_sets::replica_set::ReplicaSet;

/// What the system says of a set.
fn describe<P: QuorumSystem>(
    rt: &impl Print,
    name: &str,
    system: &P,
    set: ReplicaSet,
) -> anyhow::Result<()> {
    println!(rt;
        "{name}: {} replicas; {} of them: a quorum? {}; a fault set? {}",
        system.replicas(),
        set.len(),
        system.is_quorum(set),
        system.is_fault_set(set)
    )?;
    Ok(())
}

pub(crate) fn walk(rt: &impl Print) -> anyhow::Result<()> {
    println!(rt; "-- quorum systems")?;
    if let Err(refusal) = Threshold::check(3, 1) {
        println!(rt; "3 replicas, 1 faulty: refused with {}", refusal.code())?;
    }
    let threshold = Threshold::new(4, 1);
    let three = ReplicaSet::of_bits(0b0111);
    describe(rt, "threshold 4, 1", &threshold, three)?;
    let lists = [ReplicaSet::of_bits(0b0011), ReplicaSet::of_bits(0b0100)];
    let listed = FailProne::new(4, &lists);
    describe(rt, "lists {0,1}, {2}", &listed, ReplicaSet::of_bits(0b1100))?;
    let nested = Nested::new(threshold, threshold);
    describe(rt, "4, 1 over 4, 1", &nested, ReplicaSet::of_bits(0x111f))
}
