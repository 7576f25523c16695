// Every refusal is reached, and leaves everything as it was; a write and a read go from begin to end.
use crate::trial::{Trial, TrialCluster};
use atomicity::call::Call;
use cluster::delivery::Delivery;
use cluster::refusal::Refusal;
use cluster::tables::TableSizes;
use protocol::client::{Phase, Reply};
use protocol::message::Message;
use protocol::version::Version;
use quorums::threshold::Threshold;
use replica_sets::replica_set::ReplicaSet;
use settings::setting::Setting;
use settings::shelf_mark::ShelfMark;
use signatures::inline_signer::InlineSigner;
use signatures::ledger::Ledger;
use signatures::signatures::Signatures;
use std::process::Abort;
use std::test::Fail;

/// A trial in which replica 3 is faulty.
fn inline_trial() -> Trial<InlineSigner> {
    Trial::new(InlineSigner::new(0), ReplicaSet::of_bits(8))
}

fn ack(replica: u32, client: u32) -> Message<ShelfMark> {
    Message::Ack {
        replica,
        client,
        op: 1,
    }
}

fn value(replica: u32, timestamp: u32) -> Message<ShelfMark> {
    Message::Value {
        replica,
        client: 1,
        op: 1,
        version: Version {
            timestamp,
            value: ShelfMark::initial(),
            tag: 0,
        },
    }
}

fn sizes(replicas: usize, readers: usize, messages: usize, lines: usize) -> TableSizes {
    TableSizes {
        replicas,
        readers,
        messages,
        lines,
    }
}

/// Whether a trial's cluster can be made with this scheme, these faulty replicas and so many readers, a refusal by its number.
fn making(
    signatures: &InlineSigner,
    faulty: u32,
    reader_count: usize,
    sizes: TableSizes,
) -> Result<(), u32> {
    TrialCluster::<InlineSigner>::check(
        &Threshold::new(4, 1),
        signatures,
        ReplicaSet::of_bits(faulty),
        reader_count,
        sizes,
    )
    .map_err(Refusal::number)
}

#[test]
fn making_is_refused_by_number(rt: HostRuntime) {
    let cases = [
        (Ok(()), 1, sizes(4, 1, 1, 2)),
        (Ok(()), 8, sizes(4, 8, 4096, 8192)),
        (Err(4), 0, sizes(4, 0, 1, 2)),
        (Err(4), 9, sizes(4, 9, 1, 2)),
        (Err(5), 1, sizes(3, 1, 1, 2)),
        (Err(5), 1, sizes(4, 2, 1, 2)),
        (Err(5), 1, sizes(4, 1, 0, 2)),
        (Err(5), 1, sizes(4, 1, 4097, 2)),
        (Err(5), 1, sizes(4, 1, 1, 1)),
        (Err(5), 1, sizes(4, 1, 1, 8193)),
    ];
    let mut signer = InlineSigner::new(0);
    for (answer, readers, sizes) in cases {
        assert_eq!(rt; making(&signer, 8, readers, sizes), answer);
    }
    assert_eq!(rt; making(&signer, 12, 1, sizes(4, 1, 1, 2)), Err(6));
    assert!(rt; signer.sign(1, ShelfMark::initial().encode()).is_some());
    assert_eq!(rt; making(&signer, 8, 1, sizes(4, 1, 1, 2)), Err(7));
}

/// Makes a call that is refused by this number and changes nothing.
fn refused<K: Signatures, T: Drop, F: FnOnce(&mut Trial<K>) -> Result<T, u32>>(
    rt: &impl Abort,
    trial: &mut Trial<K>,
    number: u32,
    call: F,
)
    requires { F.IsAlwaysCallable call }
{
    let before = trial.snapshot();
    assert_eq!(rt; call(trial).err(), Some(number));
    assert!(rt; trial.snapshot() == before);
}

#[test]
fn a_shut_cluster_and_other_tables_are_refused(rt: HostRuntime) {
    let mut shut = Trial::new(InlineSigner::new(0), ReplicaSet::of_bits(12));
    refused(&rt, &mut shut, 8, |trial| trial.write(ShelfMark::initial()));
    let mut trial = inline_trial();
    refused(&rt, &mut trial, 5, |trial| {
        trial.call(
            sizes(3, 2, 12, 6),
            |cluster, tables| cluster.read(tables, 1),
        )
    });
}

/// One call of each of the seven.
fn each_call() -> [Call<ShelfMark>; 7] {
    [
        Call::Write(ShelfMark::initial()),
        Call::Read(1),
        Call::DeliverRequest {
            message: 0,
            replica: 0,
        },
        Call::DeliverReply { message: 0 },
        Call::ForgeReply(ack(3, 1)),
        Call::DropMessage(0),
        Call::Collect(1),
    ]
}

#[test]
fn a_shut_cluster_refuses_each_call(rt: HostRuntime) {
    let mut shut = Trial::new(InlineSigner::new(0), ReplicaSet::of_bits(12));
    for call in each_call() {
        refused(&rt, &mut shut, 8, |trial| {
            trial.make_call(sizes(3, 2, 12, 6), call)
        });
    }
}

#[test]
fn each_call_refuses_tables_of_another_size(rt: HostRuntime) {
    let mut trial = inline_trial();
    assert_eq!(rt; trial.read(1), Ok(1));
    let short = [
        sizes(3, 2, 12, 6),
        sizes(4, 1, 12, 6),
        sizes(4, 2, 11, 6),
        sizes(4, 2, 12, 5),
    ];
    for sizes in short {
        for call in each_call() {
            refused(&rt, &mut trial, 5, |trial| trial.make_call(sizes, call));
        }
    }
}

#[test]
fn beginning_is_refused_by_number(rt: HostRuntime) {
    let mut trial = inline_trial();
    refused(&rt, &mut trial, 9, |trial| trial.read(0));
    refused(&rt, &mut trial, 9, |trial| trial.read(3));
    assert_eq!(rt; trial.write(ShelfMark::initial()), Ok(1));
    refused(
        &rt,
        &mut trial,
        10,
        |trial| trial.write(ShelfMark::initial()),
    );
    trial.rows.readers[0].client.op = 65535;
    refused(&rt, &mut trial, 11, |trial| trial.read(1));
    assert_eq!(rt; trial.read(2), Ok(1));
    trial.rows.readers[0].client.op = 7;
    assert_eq!(rt; trial.read(1), Ok(8));
    for message in 0..9 {
        assert_eq!(rt;
            trial.deliver_request(message % 3, 0),
            Ok(Delivery::Answered)
        );
    }
    refused(&rt, &mut trial, 12, |trial| trial.deliver_request(0, 1));
    let before = trial.snapshot();
    assert_eq!(rt; trial.deliver_request(0, 3), Ok(Delivery::Unanswered));
    assert!(rt; trial.snapshot() == before);
}

#[test]
fn signing_is_refused_by_number(rt: HostRuntime) {
    let scheme = Ledger::new(Vec::new(rt.alloc()));
    let mut trial = Trial::new(scheme, ReplicaSet::of_bits(8));
    refused(
        &rt,
        &mut trial,
        14,
        |trial| trial.write(ShelfMark::initial()),
    );
}

#[test]
fn deliveries_are_refused_by_number(rt: HostRuntime) {
    let mut trial = inline_trial();
    assert_eq!(rt; trial.write(ShelfMark::initial()), Ok(1));
    assert_eq!(rt; trial.deliver_request(0, 0), Ok(Delivery::Answered));
    for (message, replica, number) in [(2, 0, 15), (1, 0, 16), (0, 4, 17)] {
        refused(
            &rt,
            &mut trial,
            number,
            |trial| trial.deliver_request(message, replica),
        );
    }
    for (message, number) in [(2, 15), (0, 16)] {
        refused(
            &rt,
            &mut trial,
            number,
            |trial| trial.deliver_reply(message),
        );
    }
    refused(&rt, &mut trial, 15, |trial| trial.drop_message(2));
    for (replica, client, number) in [(4, 0, 17), (0, 3, 9)] {
        trial.rows.messages[1] = Message::Ack {
            replica,
            client,
            op: 1,
        };
        refused(&rt, &mut trial, number, |trial| trial.deliver_reply(1));
    }
}

#[test]
fn forging_and_collecting_are_refused_by_number(rt: HostRuntime) {
    let mut trial = inline_trial();
    let forged = [
        (Message::Query { client: 0, op: 1 }, 16),
        (ack(4, 0), 17),
        (ack(2, 0), 18),
        (ack(3, 3), 9),
    ];
    for (message, number) in forged {
        refused(&rt, &mut trial, number, |trial| trial.forge_reply(message));
    }
    for (reader, number) in [(0, 9), (3, 9), (1, 19), (2, 19)] {
        refused(&rt, &mut trial, number, |trial| trial.collect(reader));
    }
}

#[test]
fn full_tables_are_refused_by_number(rt: HostRuntime) {
    let mut trial = inline_trial();
    assert_eq!(rt; trial.read(1), Ok(1));
    for _ in 0..4 {
        trial.put_near_end(Phase::Storing);
        assert_eq!(rt; trial.forge_reply(ack(3, 1)), Ok(Reply::Finished));
    }
    refused(
        &rt,
        &mut trial,
        13,
        |trial| trial.write(ShelfMark::initial()),
    );
    refused(&rt, &mut trial, 13, |trial| trial.read(2));
    trial.put_near_end(Phase::Storing);
    assert_eq!(rt; trial.forge_reply(ack(3, 1)), Ok(Reply::Finished));
    trial.put_near_end(Phase::Storing);
    refused(&rt, &mut trial, 13, |trial| trial.forge_reply(ack(3, 1)));
    for _ in 0..11 {
        assert_eq!(rt; trial.deliver_request(0, 0), Ok(Delivery::Answered));
    }
    trial.put_near_end(Phase::Querying);
    refused(&rt, &mut trial, 12, |trial| trial.forge_reply(value(3, 0)));
}

/// Delivers a request to the replicas 0, 1 and 2, each of which answers.
fn answer_all(rt: &impl Abort, trial: &mut Trial<InlineSigner>, message: usize) {
    for replica in 0..3 {
        assert_eq!(rt;
            trial.deliver_request(message, replica),
            Ok(Delivery::Answered)
        );
    }
}

/// Delivers three replies, the second twice; the last ends the phase.
fn hear_three(rt: &impl Abort, trial: &mut Trial<InlineSigner>, places: [usize; 3], end: Reply) {
    let [first, second, third] = places;
    assert_eq!(rt; trial.deliver_reply(first), Ok(Reply::Heard));
    assert_eq!(rt; trial.deliver_reply(second), Ok(Reply::Heard));
    assert_eq!(rt; trial.deliver_reply(second), Ok(Reply::Ignored));
    assert_eq!(rt; trial.deliver_reply(third), Ok(end));
}

/// Writes a setting, and delivers what that takes.
fn write_by_hand(rt: &impl Abort, trial: &mut Trial<InlineSigner>, mark: ShelfMark) {
    assert_eq!(rt; trial.write(mark), Ok(1));
    answer_all(rt, trial, 0);
    hear_three(rt, trial, [1, 2, 3], Reply::Finished);
}

/// Reads by reader 1 after the write, and delivers what that takes.
fn read_by_hand(rt: &impl Abort, trial: &mut Trial<InlineSigner>) {
    assert_eq!(rt; trial.read(1), Ok(1));
    answer_all(rt, trial, 4);
    assert_eq!(rt; trial.forge_reply(value(3, 9)), Ok(Reply::Ignored));
    hear_three(rt, trial, [5, 6, 7], Reply::Turned);
    answer_all(rt, trial, 8);
    hear_three(rt, trial, [9, 10, 11], Reply::Finished);
}

#[test]
fn a_write_and_a_read_by_hand(rt: HostRuntime) -> Result<(), Fail> {
    let mark = ShelfMark::try_from(b"QC-417/b".as_slice())?;
    let mut trial = inline_trial();
    write_by_hand(&rt, &mut trial, mark);
    read_by_hand(&rt, &mut trial);
    let completed = trial.collect(1)?;
    assert_eq!(rt;
        (completed.reader(), completed.op(), completed.timestamp()),
        (1, 1, 1)
    );
    assert_eq!(rt; completed.setting(), mark);
    assert!(rt; trial.collect(1).is_err());
    let lines = [(1, 0, 1, 1), (2, 0, 1, 1), (3, 1, 1, 0), (4, 1, 1, 1)];
    for (line, told) in trial.rows.lines.iter().zip(lines) {
        assert_eq!(rt; (line.kind, line.client, line.op, line.timestamp), told);
    }
    assert_eq!(rt; trial.cluster.journal_lines(), 4);
    Ok(())
}

#[test]
fn later_messages_move_up(rt: HostRuntime) {
    let mut trial = inline_trial();
    write_by_hand(&rt, &mut trial, ShelfMark::initial());
    assert_eq!(rt; trial.read(1), Ok(1));
    assert_eq!(rt; trial.cluster.messages_in_flight(), 5);
    assert_eq!(rt; trial.drop_message(1), Ok(()));
    assert_eq!(rt; trial.cluster.messages_in_flight(), 4);
    let left = [(false, 0), (true, 1), (true, 2), (false, 0)];
    for (message, told) in trial.rows.messages.iter().zip(left) {
        assert_eq!(rt; (message.is_reply(), message.replica()), told);
    }
}
