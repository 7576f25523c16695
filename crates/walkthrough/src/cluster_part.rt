// A write that finishes against one silent and one lying replica.
use cluster::cluster::Cluster;
use cluster::making::Parts;
use cluster::rows::Rows;
use cluster::tables::Tables;
use protocol::message::Message;
use quorums::threshold::Threshold;
use replica_sets::replica_set::ReplicaSet;
use settings::shelf_mark::ShelfMark;
use signatures::inline_signer::InlineSigner;

/// A cluster of four replicas, of which replica 3 is faulty, and one reader, with its tables.
#[derive(Drop)]
struct Store<'a> {
    cluster: Cluster<ShelfMark, Threshold, InlineSigner>,
    tables: Tables<'a>,
}

impl<'a> Store<'a> {
    fn new(mut tables: Tables<'a>) -> Store<'a> {
        let parts = Parts {
            system: Threshold::new(4, 1),
            signatures: InlineSigner::new(1000),
            faulty: ReplicaSet::of_bits(0b1000),
            reader_count: 1,
        };
        let cluster = Cluster::new(parts, &mut tables);
        Store { cluster, tables }
    }

    fn write(&mut self, rt: &impl Print, mark: ShelfMark) -> anyhow::Result<()> {
        let timestamp = self.cluster.write(&mut self.tables, mark)?;
        println!(rt; "write {mark}: timestamp {timestamp}")?;
        Ok(())
    }

    fn deliver_request(
        &mut self,
        rt: &impl Print,
        message: usize,
        replica: u32,
    ) -> anyhow::Result<()> {
        let delivery = self
            .cluster
            .deliver_request(&mut self.tables, message, replica)?;
        println!(rt; "message {message} to replica {replica}: {delivery}")?;
        Ok(())
    }

    fn deliver_reply(&mut self, rt: &impl Print, message: usize) -> anyhow::Result<()> {
        let reply = self.cluster.deliver_reply(&mut self.tables, message)?;
        println!(rt; "message {message} to its client: {reply}")?;
        Ok(())
    }

    fn forge_ack(&mut self, rt: &impl Print, replica: u32) -> anyhow::Result<()> {
        let ack = Message::Ack {
            replica,
            client: 0,
            op: 1,
        };
        match self.cluster.forge_reply(&mut self.tables, ack) {
            Ok(reply) => println!(rt; "an acknowledgement forged for replica {replica}: {reply}")?,
            Err(refusal) => println!(rt;
                "an acknowledgement forged for replica {replica}: refused {}",
                refusal.number()
            )?,
        }
        Ok(())
    }
}

pub(crate) fn walk(rt: &impl Print) -> anyhow::Result<()> {
    println!(rt; "-- a write; replica 2 is silent, and replica 3 lies")?;
    let mark = ShelfMark::try_from(b"P.Oxy.4443".as_slice())?;
    let mut rows = Rows::<4, 1, 16, 8>::blank();
    let mut store = Store::new(rows.tables());
    store.write(rt, mark)?;
    store.deliver_request(rt, 0, 0)?;
    store.deliver_request(rt, 0, 1)?;
    store.deliver_request(rt, 0, 3)?;
    store.deliver_reply(rt, 1)?;
    store.deliver_reply(rt, 1)?;
    store.forge_ack(rt, 2)?;
    store.deliver_reply(rt, 2)?;
    store.forge_ack(rt, 3)?;
    println!(rt; "the journal has {} lines", store.cluster.journal_lines())?;
    Ok(())
}
