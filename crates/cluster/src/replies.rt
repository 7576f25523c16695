// The delivery of replies to clients.
ghost use Rattle.std.specs.Prelude.{◌≡◌, ◌≤◌, length};
ghost use Rattle.cluster.specs.Refusals.{numbered};
ghost use Rattle.cluster.specs.State.{state, Stays, SameTables};
ghost use Rattle.cluster.specs.Steps.{hear, reply_step, forge_step};

use crate::clients::{client_at, end_line, finish_client, message_at, put_client, write_back};
use crate::cluster::Cluster;
use crate::refusal::Refusal;
use crate::refusals::{forge_refusal, reply_refusal};
use crate::tables::Tables;
use protocol::client::Reply;
use protocol::encoded::decode_message;
use protocol::message::Message;
use quorums::quorum_system::QuorumSystem;
use settings::setting::Setting;
use signatures::signatures::Signatures;

impl<S: Setting, P: QuorumSystem, K: Signatures> Cluster<S, P, K> {
    /// Hands a reply to a client. The reply is lent: handed over by value it would be copied once more.
    fn hear(
        &mut self,
        tables: &mut Tables<'_>,
        id: u32,
        message: &Message<S>,
    ) -> Result<Reply, Refusal>
        requires known { id ≤ length tables.old.readers.now }
        requires messages { length tables.old.messages.now ≡ self.old.messages.places }
        requires lines { length tables.old.lines.now ≡ self.old.lines.places }
        ensures steps { let of = state P.quorums K.book K.free in hear S.kind (of self.old tables.old) id message.now ≡ (numbered result, of self.new tables.new) }
        ensures holds { Stays result self.old self.new tables.old tables.new }
        ensures tables { SameTables tables.old tables.new }
    {
        let before = client_at(self.writer, tables, id);
        let mut client = before;
        match client.react(&self.system, &self.signatures, *message) {
            Reply::Ignored => Ok(Reply::Ignored),
            Reply::Heard => {
                put_client(&mut self.writer, tables.readers, id, client);
                Ok(Reply::Heard)
            }
            Reply::Turned => {
                if self.messages.is_full() {
                    return Err(Refusal::InFlightFull);
                }
                put_client(&mut self.writer, tables.readers, id, client);
                self.messages
                    .append(tables.messages, write_back(id, client));
                Ok(Reply::Turned)
            }
            Reply::Finished => {
                if self.lines.is_full() {
                    return Err(Refusal::JournalFull);
                }
                finish_client(&mut self.writer, tables.readers, id, before, client);
                self.lines.append(tables.lines, end_line(id, before));
                Ok(Reply::Finished)
            }
        }
    }

    /// Delivers a reply in flight to its client; the reply stays in flight.
    pub fn deliver_reply(
        &mut self,
        tables: &mut Tables<'_>,
        message: usize,
    ) -> Result<Reply, Refusal>
        ensures steps { let of = state P.quorums K.book K.free in reply_step S.kind (of self.old tables.old) message ≡ (numbered result, of self.new tables.new) }
        ensures holds { Stays result self.old self.new tables.old tables.new }
        ensures tables { SameTables tables.old tables.new }
    {
        self.closed(tables)?;
        let Some(row) = message_at(self.messages, tables, message) else {
            return Err(Refusal::NoMessage);
        };
        reply_refusal(row, self.system.replicas(), tables.readers.len())?;
        self.hear(tables, row.client(), &decode_message(row))
    }

    /// Hands a client a reply as from a faulty replica, past the messages in flight.
    pub fn forge_reply(
        &mut self,
        tables: &mut Tables<'_>,
        message: Message<S>,
    ) -> Result<Reply, Refusal>
        ensures steps { let of = state P.quorums K.book K.free in forge_step S.kind (of self.old tables.old) message ≡ (numbered result, of self.new tables.new) }
        ensures holds { Stays result self.old self.new tables.old tables.new }
        ensures tables { SameTables tables.old tables.new }
    {
        self.closed(tables)?;
        forge_refusal(
            message,
            self.system.replicas(),
            self.faulty,
            tables.readers.len(),
        )?;
        self.hear(tables, message.client(), &message)
    }
}
