// The last band and the next, a band twice, all bands, and a camera that was never measured.
use crate::alignment_refusal::AlignmentRefusal;
use crate::alignment_run::AlignmentRun;
use cluster::cluster::Cluster;
use cluster::completed_read::CompletedRead;
use cluster::making::Parts;
use cluster::refusal::Refusal;
use cluster::rows::Rows;
use quorums::threshold::Threshold;
use replica_sets::replica_set::ReplicaSet;
use settings::shelf_mark::ShelfMark;
use signatures::inline_signer::InlineSigner;
use std::process::Abort;
use std::test::Fail;

/// Reads from one replica to which nothing was written.
fn first_read() -> Result<CompletedRead<ShelfMark>, Refusal> {
    let mut rows: Rows<1, 1, 4, 2> = Rows::blank();
    let mut tables = rows.tables();
    let parts = Parts {
        system: Threshold::new(1, 0),
        signatures: InlineSigner::new(0),
        faulty: ReplicaSet::empty(),
        reader_count: 1,
    };
    let mut cluster = Cluster::new(parts, &mut tables);
    cluster.read(&mut tables, 1)?;
    cluster.deliver_request(&mut tables, 0, 0)?;
    cluster.deliver_reply(&mut tables, 1)?;
    cluster.deliver_request(&mut tables, 2, 0)?;
    cluster.deliver_reply(&mut tables, 3)?;
    cluster.collect(&mut tables, 1)
}

/// Notes each band, and compares the answer, a refusal by its number.
fn note_each(rt: &impl Abort, run: &mut AlignmentRun<ShelfMark>, cases: &[(u32, Result<(), u32>)]) {
    for (band, answer) in cases {
        assert_eq!(rt; run.note(*band).map_err(AlignmentRefusal::number), *answer);
    }
}

#[test]
fn bands_are_noted_once(rt: HostRuntime) -> Result<(), Fail> {
    let mut run = AlignmentRun::start(first_read()?);
    note_each(
        &rt,
        &mut run,
        &[
            (63, Ok(())),
            (64, Err(29)),
            (63, Err(30)),
            (u32::MAX, Err(29)),
            (0, Ok(())),
            (0, Err(30)),
        ],
    );
    assert!(rt; run.is_noted(63) && run.is_noted(0));
    assert!(rt; !run.is_noted(1) && !run.is_noted(64));
    assert_eq!(rt; (run.timestamp(), run.reader()), (0, 1));
    assert_eq!(rt; run.close().bands, 2);
    Ok(())
}

#[test]
fn all_bands_are_noted(rt: HostRuntime) -> Result<(), Fail> {
    let mut run = AlignmentRun::start(first_read()?);
    for band in 0..64 {
        run.note(band)?;
    }
    assert_eq!(rt; run.close().bands, 64);
    Ok(())
}
