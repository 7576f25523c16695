// A full book: the 65th write under an inline signer is refused.
use cluster::cluster::Cluster;
use cluster::making::Parts;
use cluster::refusal::Refusal;
use cluster::rows::Rows;
use quorums::threshold::Threshold;
use replica_sets::replica_set::ReplicaSet;
use settings::setting::Setting;
use settings::shelf_mark::ShelfMark;
use signatures::inline_signer::InlineSigner;

/// A cluster of one replica and one reader, with its rows.
#[derive(Drop)]
struct Single {
    cluster: Cluster<ShelfMark, Threshold, InlineSigner>,
    rows: Rows<1, 1, 2, 200>,
}

impl Single {
    fn new() -> Single {
        let mut rows = Rows::blank();
        let parts = Parts {
            system: Threshold::new(1, 0),
            signatures: InlineSigner::new(0),
            faulty: ReplicaSet::empty(),
            reader_count: 1,
        };
        let cluster = Cluster::new(parts, &mut rows.tables());
        Single { cluster, rows }
    }

    /// A write from its beginning to its end, by one delivery and one acknowledgement; no message is left in flight.
    fn write_to_the_end(&mut self) -> Result<(), Refusal> {
        let cluster = &mut self.cluster;
        let tables = &mut self.rows.tables();
        cluster.write(tables, ShelfMark::initial())?;
        cluster.deliver_request(tables, 0, 0)?;
        cluster.deliver_reply(tables, 1)?;
        cluster.drop_message(tables, 1)?;
        cluster.drop_message(tables, 0)
    }

    /// Writes until a write is refused, at most 100 times: how many ended, and the refusal's number, if there was one.
    fn write_on(&mut self) -> (u32, Option<u32>) {
        for ended in 0..100 {
            if let Err(refusal) = self.write_to_the_end() {
                return (ended, Some(refusal.number()));
            }
        }
        (100, None)
    }
}

#[test]
fn the_65th_write_is_refused_with_14(rt: HostRuntime) {
    assert_eq!(rt; Single::new().write_on(), (64, Some(14)));
}
