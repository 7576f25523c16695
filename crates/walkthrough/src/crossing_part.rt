// A crossing: one write and two reads at the same time, replica 3 forges, and replica 2 lags.
use anyhow::Context;
use atomicity::answer::Answer;
use atomicity::call::Call;
use atomicity::simulation::simulate;
use cluster::making::Parts;
use cluster::refusal::Refusal;
use cluster::rows::Rows;
use protocol::message::Message;
use protocol::version::{Version, initial_version};
use quorums::threshold::Threshold;
use replica_sets::replica_set::ReplicaSet;
use settings::shelf_mark::ShelfMark;
use signatures::inline_signer::InlineSigner;
use std::alloc::Global;
use std::io;

fn to_replica(message: usize, replica: u32) -> Call<ShelfMark> {
    Call::DeliverRequest { message, replica }
}

fn to_client(message: usize) -> Call<ShelfMark> {
    Call::DeliverReply { message }
}

/// A value as from replica 3, to the first read of a reader.
fn forged_value(reader: u32, version: Version<ShelfMark>) -> Call<ShelfMark> {
    Call::ForgeReply(Message::Value {
        replica: 3,
        client: reader,
        op: 1,
        version,
    })
}

/// The first read begins beside the write, and finishes before it.
fn first_read(written: ShelfMark, unsigned: ShelfMark) -> [Call<ShelfMark>; 15] {
    let lie = Version {
        timestamp: 9,
        value: unsigned,
        tag: 77,
    };
    let ack = Message::Ack {
        replica: 3,
        client: 1,
        op: 1,
    };
    [
        Call::Write(written),
        to_replica(0, 0),
        Call::Read(1),
        to_replica(2, 0),
        to_replica(2, 1),
        to_replica(2, 2),
        forged_value(1, lie),
        to_client(4),
        to_client(5),
        to_client(3),
        to_replica(6, 0),
        to_replica(6, 1),
        Call::ForgeReply(ack),
        to_client(7),
        to_client(8),
    ]
}

/// The second read asks replica 1, the lagging replica 2 and the lying replica 3; then the write finishes too.
fn second_read() -> [Call<ShelfMark>; 19] {
    [
        Call::Read(2),
        to_replica(9, 1),
        to_replica(9, 2),
        forged_value(2, initial_version::<ShelfMark>()),
        to_client(11),
        to_client(10),
        to_replica(12, 1),
        to_replica(12, 2),
        to_replica(12, 0),
        to_client(13),
        to_client(14),
        to_client(15),
        Call::Collect(1),
        Call::Collect(2),
        to_replica(0, 1),
        to_replica(0, 2),
        to_client(1),
        to_client(16),
        to_client(17),
    ]
}

fn print_answer(
    rt: &impl Print,
    place: usize,
    answer: Result<Answer<ShelfMark>, Refusal>,
) -> io::Result<()> {
    match answer {
        Ok(Answer::Written(timestamp)) => println!(rt; "{place} write: timestamp {timestamp}"),
        Ok(Answer::ReadBegun(op)) => println!(rt; "{place} read: operation {op}"),
        Ok(Answer::Delivered(delivery)) => println!(rt; "{place} to a replica: {delivery}"),
        Ok(Answer::Replied(reply)) => println!(rt; "{place} to a client: {reply}"),
        Ok(Answer::Dropped) => println!(rt; "{place} dropped 1"),
        Ok(Answer::Collected(read)) => println!(rt;
            "{place} reader {} gets {} of timestamp {}",
            read.reader(),
            read.setting(),
            read.timestamp()
        ),
        Err(refusal) => println!(rt; "{place} refused {}", refusal.number()),
    }
}

fn calls_of(heap: Global) -> anyhow::Result<Vec<Call<ShelfMark>>> {
    let written = ShelfMark::try_from(b"P.Oxy.4443".as_slice())?;
    let unsigned = ShelfMark::try_from(b"P.Oxy.9999".as_slice())?;
    let mut calls = Vec::new(heap);
    calls.extend_from_slice(&first_read(written, unsigned))?;
    calls.extend_from_slice(&second_read())?;
    Ok(calls)
}

pub(crate) fn walk(rt: &impl Print, heap: Global) -> anyhow::Result<()> {
    println!(rt; "-- a crossing; replica 2 lags, and replica 3 forges")?;
    let calls = calls_of(heap)?;
    let parts = Parts {
        system: Threshold::new(4, 1),
        signatures: InlineSigner::new(0),
        faulty: ReplicaSet::of_bits(0b1000),
        reader_count: 2,
    };
    let mut rows = Rows::<4, 2, 24, 8>::blank();
    let mut tables = rows.tables();
    let simulation = simulate(heap, parts, &mut tables, &calls)
        .ok()
        .context("no memory")?;
    for (i, answer) in simulation.answers.into_iter().enumerate() {
        print_answer(rt, i, answer)?;
    }
    Ok(())
}
