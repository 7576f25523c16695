// From a measured lens to a closed alignment run.
use crate::settings_part::MEASURED;
use alignment::alignment_run::AlignmentRun;
use alignment::closed::Closed;
use anyhow::{Context, bail};
use atomicity::answer::Answer;
use atomicity::call::Call;
use atomicity::simulation::simulate;
use cluster::completed_read::CompletedRead;
use cluster::making::Parts;
use cluster::rows::Rows;
use quorums::threshold::Threshold;
use replica_sets::replica_set::ReplicaSet;
use settings::lens_correction::LensCorrection;
use signatures::inline_signer::InlineSigner;
use std::alloc::Global;

/// A write of a correction and a read of it, through one replica.
fn calls_of(lens: LensCorrection) -> [Call<LensCorrection>; 9] {
    [
        Call::Write(lens),
        Call::DeliverRequest {
            message: 0,
            replica: 0,
        },
        Call::DeliverReply { message: 1 },
        Call::Read(1),
        Call::DeliverRequest {
            message: 2,
            replica: 0,
        },
        Call::DeliverReply { message: 3 },
        Call::DeliverRequest {
            message: 4,
            replica: 0,
        },
        Call::DeliverReply { message: 5 },
        Call::Collect(1),
    ]
}

/// The completed read with which those calls end.
fn read_back(heap: Global, lens: LensCorrection) -> anyhow::Result<CompletedRead<LensCorrection>> {
    let parts = Parts {
        system: Threshold::new(1, 0),
        signatures: InlineSigner::new(0),
        faulty: ReplicaSet::empty(),
        reader_count: 1,
    };
    let mut rows = Rows::<1, 1, 6, 4>::blank();
    let mut tables = rows.tables();
    let mut simulation = simulate(heap, parts, &mut tables, &calls_of(lens))
        .ok()
        .context("no memory")?;
    match simulation.answers.pop().context("no answer")?? {
        Answer::Collected(read) => Ok(read),
        _ => bail!("no read was collected"),
    }
}

fn note(rt: &impl Print, run: &mut AlignmentRun<LensCorrection>, band: u32) -> anyhow::Result<()> {
    match run.note(band) {
        Ok(()) => println!(rt; "band {band}: noted")?,
        Err(refusal) => println!(rt; "band {band}: refused {}", refusal.number())?,
    }
    Ok(())
}

pub(crate) fn walk(rt: &impl Print, heap: Global) -> anyhow::Result<()> {
    println!(rt; "-- an alignment run, from a correction that was read")?;
    let lens = LensCorrection::try_from(MEASURED)?;
    let read = read_back(heap, lens)?;
    let mut run = AlignmentRun::start(read);
    println!(rt; "the run has k1 {} billionths", run.setting().k1())?;
    for band in [0, 12, 63, 12, 64] {
        note(rt, &mut run, band)?;
    }
    let Closed { timestamp, bands } = run.close();
    println!(rt; "closed: timestamp {timestamp}, {bands} bands")?;
    Ok(())
}
