// A round: a random cluster, and calls of it.
use crate::calls::play_call;
use crate::making::{random_faulty, random_reader_count, random_sizes, sign_beforehand};
use crate::rows::Rows;
use crate::snapshot::mix_snapshot;
use crate::systems::{System, random_system};
use crate::trial::Trial;
use cluster::cluster::Cluster;
use cluster::making::Parts;
use cluster::refusal::Refusal;
use quorums::quorum_system::QuorumSystem;
use settings::lens_correction::LensCorrection;
use settings::setting::Setting;
use settings::shelf_mark::ShelfMark;
use signatures::inline_signer::InlineSigner;
use signatures::ledger::Ledger;
use signatures::signatures::Signatures;

/// How many calls a round has.
const CALLS: u32 = 256;

/// After how many calls a snapshot is mixed in.
const SNAPSHOT_INTERVAL: u32 = 32;

/// The number of a round, and whether a line is printed after each of its calls.
#[derive(Clone, Copy, Debug, PartialEq, Eq)]
pub(crate) struct Round {
    pub number: u64,
    pub shows_calls: bool,
}

// Handle, round and trial go down as three parameters: a struct of the two borrows would be taken apart in each of these functions, which is no plainer.

/// The calls of a round.
fn play_calls<S: Setting, P: QuorumSystem, K: Signatures>(
    rt: &HostRuntime,
    round: Round,
    trial: &mut Trial,
    cluster: &mut Cluster<S, P, K>,
    rows: &mut Rows,
) -> anyhow::Result<()> {
    for call in 1..=CALLS {
        play_call(trial, cluster, rows);
        if call % SNAPSHOT_INTERVAL == 0 {
            mix_snapshot(&mut trial.digest, cluster, rows);
        }
        if round.shows_calls {
            let (number, digest) = (round.number, trial.digest.value());
            println!(rt; "round {number} call {call} digest {digest:016x}")?;
        }
    }
    Ok(())
}

/// A round from its tables on.
fn play_with<S: Setting, P: QuorumSystem + Drop, K: Signatures + Drop>(
    rt: &HostRuntime,
    round: Round,
    trial: &mut Trial,
    system: P,
    mut signatures: K,
) -> anyhow::Result<()> {
    let reader_count = random_reader_count(&mut trial.generator);
    let sizes = random_sizes(
        &mut trial.generator,
        system.replicas() as usize,
        reader_count,
    );
    let faulty = random_faulty(&mut trial.generator, &system);
    sign_beforehand(trial, &mut signatures);
    let checked = Cluster::<S, P, K>::check(&system, &signatures, faulty, reader_count, sizes);
    trial.note_check(checked.map_err(Refusal::number));
    let parts = Parts {
        system,
        signatures,
        faulty,
        reader_count,
    };
    let mut rows = Rows::new(rt.alloc(), sizes)?;
    let mut cluster = Cluster::<S, P, K>::new(parts, &mut rows.tables());
    play_calls(rt, round, trial, &mut cluster, &mut rows)
}

/// A round from its scheme on.
fn play_system<S: Setting, P: QuorumSystem + Drop>(
    rt: &HostRuntime,
    round: Round,
    trial: &mut Trial,
    system: P,
) -> anyhow::Result<()> {
    if trial.generator.below(2) == 0 {
        let entries = trial.generator.below(65) as usize;
        let ledger = Ledger::with_room(rt.alloc(), entries)?;
        play_with::<S, P, _>(rt, round, trial, system, ledger)
    } else {
        let signer = InlineSigner::new(trial.generator.word());
        play_with::<S, P, _>(rt, round, trial, system, signer)
    }
}

/// A round from its quorum system on.
fn play_kind<S: Setting>(rt: &HostRuntime, round: Round, trial: &mut Trial) -> anyhow::Result<()> {
    match random_system(trial) {
        System::Threshold(threshold) => play_system::<S, _>(rt, round, trial, threshold),
        System::Listed(listed) => play_system::<S, _>(rt, round, trial, listed),
        System::Groups(groups) => play_system::<S, _>(rt, round, trial, groups),
    }
}

/// A whole round.
pub(crate) fn play(rt: &HostRuntime, round: Round, trial: &mut Trial) -> anyhow::Result<()> {
    if trial.generator.below(2) == 0 {
        play_kind::<ShelfMark>(rt, round, trial)
    } else {
        play_kind::<LensCorrection>(rt, round, trial)
    }
}
