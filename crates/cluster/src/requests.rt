// The delivery of requests to replicas.
ghost use Rattle.std.specs.Prelude.{◌≡◌};
ghost use Rattle.cluster.specs.Refusals.{numbered};
ghost use Rattle.cluster.specs.State.{state, Stays, SameTables};
ghost use Rattle.cluster.specs.Steps.{request_step};

use crate::clients::{message_at, version_at};
use crate::cluster::Cluster;
use crate::delivery::Delivery;
use crate::refusal::Refusal;
use crate::refusals::request_refusal;
use crate::tables::Tables;
use protocol::encoded::{decode_message, encode_message};
use protocol::replica::replica_step;
use quorums::quorum_system::QuorumSystem;
use settings::setting::Setting;
use signatures::signatures::Signatures;

impl<S: Setting, P: QuorumSystem, K: Signatures> Cluster<S, P, K> {
    /// Delivers a request in flight to a replica; the request stays in flight.
    pub fn deliver_request(
        &mut self,
        tables: &mut Tables<'_>,
        message: usize,
        replica: u32,
    ) -> Result<Delivery, Refusal>
        ensures steps { let of = state P.quorums K.book K.free in request_step S.kind (of self.old tables.old) message replica ≡ (numbered result, of self.new tables.new) }
        ensures holds { Stays result self.old self.new tables.old tables.new }
        ensures tables { SameTables tables.old tables.new }
    {
        self.closed(tables)?;
        let Some(row) = message_at(self.messages, tables, message) else {
            return Err(Refusal::NoMessage);
        };
        request_refusal(row, replica, self.system.replicas())?;
        if self.faulty.contains(replica) {
            return Ok(Delivery::Unanswered);
        }
        let mut kept = version_at(tables, replica);
        let Some(answer) = replica_step(
            &self.signatures,
            replica,
            &mut kept,
            decode_message::<S>(row),
        ) else {
            return Ok(Delivery::Unanswered);
        };
        if self.messages.is_full() {
            return Err(Refusal::InFlightFull);
        }
        tables.replicas[replica as usize] = kept;
        self.messages
            .append(tables.messages, encode_message(answer));
        Ok(Delivery::Answered)
    }
}
