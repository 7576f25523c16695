// The workloads of the cluster's calls: each gives the sum of the numbers of its turns.
use crate::fixture::Fixture;
use crate::numbers::Number;
use crate::turns::sum_of;
use cluster::reader::{Completed, Reader};
use protocol::client::{Client, Phase};
use protocol::message::Message;
use protocol::version::Version;
use quorums::quorum_system::QuorumSystem;
use quorums::threshold::Threshold;
use replica_sets::replica_set::ReplicaSet;
use settings::setting::Setting;
use settings::shelf_mark::ShelfMark;

/// A cluster is made anew; 1 where it is shut.
pub(crate) fn make(mut fixture: Fixture, count: u32) -> u64 {
    sum_of(count, |_| u64::from(fixture.made_anew().is_shut()))
}

/// A cluster is made anew, and the mark is written.
pub(crate) fn write(mut fixture: Fixture, count: u32, mark: ShelfMark) -> u64 {
    sum_of(count, |_| {
        let mut cluster = fixture.made_anew();
        let shut = u64::from(cluster.is_shut());
        let begun = cluster.write(&mut fixture.rows.tables(), mark);
        shut.wrapping_add(begun.number())
    })
}

/// A cluster is made anew, and reader 1 reads.
pub(crate) fn read(mut fixture: Fixture, count: u32) -> u64 {
    sum_of(count, |_| {
        let mut cluster = fixture.made_anew();
        let shut = u64::from(cluster.is_shut());
        let begun = cluster.read(&mut fixture.rows.tables(), 1);
        shut.wrapping_add(begun.number())
    })
}

/// A request is answered, and the answer is dropped.
pub(crate) fn answered(mut fixture: Fixture, count: u32, message: usize, replica: u32) -> u64 {
    let last = fixture.last_place;
    sum_of(count, |_| {
        let answered = fixture.deliver_request(message, replica);
        answered.wrapping_add(fixture.drop_message(last))
    })
}

/// A faulty replica is silent.
pub(crate) fn silent(mut fixture: Fixture, count: u32) -> u64 {
    let replica = fixture.last_replica;
    sum_of(count, |_| fixture.deliver_request(0, replica))
}

/// A value is heard.
pub(crate) fn heard(mut fixture: Fixture, count: u32) -> u64 {
    let before = fixture.rows.readers[0];
    sum_of(count, |_| {
        fixture.rows.readers[0] = before;
        fixture.deliver_reply(2)
    })
}

/// A value that was heard before is ignored.
pub(crate) fn ignored(mut fixture: Fixture, count: u32) -> u64 {
    fixture.deliver_reply(2);
    sum_of(count, |_| fixture.deliver_reply(2))
}

/// The least number of replicas that is a quorum.
fn least_quorum(system: &Threshold) -> u32 {
    (1..32)
        .find(|size| system.is_quorum(ReplicaSet::first(*size)))
        .unwrap_or(32)
}

/// A reader's row in the read 1, one reply of replica 0 short of a quorum.
fn nearly_done(fixture: &Fixture, phase: Phase) -> Reader {
    let heard = ReplicaSet::first(least_quorum(fixture.cluster.system()));
    Reader {
        client: Client {
            heard: heard.difference(ReplicaSet::of_bits(1)),
            ..Client::new::<ShelfMark>(phase, 1)
        },
        completed: None,
    }
}

/// A value turns the read, and what is then sent is dropped.
pub(crate) fn turned(mut fixture: Fixture, count: u32) -> u64 {
    let row = nearly_done(&fixture, Phase::Querying);
    let last = fixture.last_place;
    sum_of(count, |_| {
        fixture.rows.readers[0] = row;
        let turned = fixture.deliver_reply(2);
        turned.wrapping_add(fixture.drop_message(last))
    })
}

/// A forged acknowledgement finishes the read.
pub(crate) fn finished(mut fixture: Fixture, count: u32) -> u64 {
    let row = nearly_done(&fixture, Phase::Storing);
    let ack = Message::Ack {
        replica: fixture.last_replica,
        client: 1,
        op: 1,
    };
    sum_of(count, |_| {
        fixture.rows.readers[0] = row;
        fixture.forge_reply(ack)
    })
}

/// A forged value of a version that isn't genuine is ignored.
pub(crate) fn forged(mut fixture: Fixture, count: u32, mark: ShelfMark) -> u64 {
    let version = Version {
        timestamp: 9,
        value: mark,
        tag: 9,
    };
    let value = Message::Value {
        replica: fixture.last_replica,
        client: 1,
        op: 1,
        version,
    };
    sum_of(count, |_| fixture.forge_reply(value))
}

/// A message near the front is dropped, and another one sent.
pub(crate) fn dropped(mut fixture: Fixture, count: u32) -> u64 {
    sum_of(count, |_| {
        let dropped = fixture.drop_message(2);
        dropped.wrapping_add(fixture.deliver_request(1, 0))
    })
}

/// A completed read is collected.
pub(crate) fn collected(mut fixture: Fixture, count: u32, mark: ShelfMark) -> u64 {
    let completed = Completed {
        op: 1,
        timestamp: 1,
        encoding: mark.encode(),
    };
    sum_of(count, |_| {
        fixture.rows.readers[0].completed = Some(completed);
        fixture.collect(1)
    })
}
