// How operations begin.
ghost use Rattle.std.specs.Prelude.{◌≡◌, ℕ, ◌^◌, ◌<◌, MatchResult};
ghost use Rattle.protocol.specs.Versions.{version};
ghost use Rattle.protocol.specs.declared.message.Message.TheVariants.{Query, Store};
ghost use Rattle.cluster.specs.Journal.{line};
ghost use Rattle.cluster.specs.Refusals.{numbered};
ghost use Rattle.cluster.specs.State.{state, Kept, Unchanged, Stays, SameTables};
ghost use Rattle.cluster.specs.Steps.{write_step, read_step};
ghost use Rattle.cluster.specs.declared.journal.LineKind.TheVariants.{WriteBegun, ReadBegun};

use crate::clients::{put_client, reader_at};
use crate::cluster::Cluster;
use crate::journal::{Line, LineKind};
use crate::refusal::Refusal;
use crate::refusals::{begin_refusal, open_operations, read_refusal};
use crate::tables::Tables;
use encodings::encoding::Encoding;
use protocol::client::{Client, Phase};
use protocol::message::Message;
use protocol::version::Version;
use quorums::quorum_system::QuorumSystem;
use settings::setting::Setting;
use signatures::signatures::Signatures;

/// The message of the write `op`, whose timestamp is its operation number.
fn store_message(op: u32, encoding: Encoding, tag: u32) -> Message<Encoding>
    ensures { result ≡ Store 0 op (version op encoding tag) }
{
    let version = Version {
        timestamp: op,
        value: encoding,
        tag,
    };
    Message::Store {
        client: 0,
        op,
        version,
    }
}

/// The message of a reader's read.
fn query_message(reader: u32, op: u32) -> Message<Encoding>
    ensures { result ≡ Query reader op }
{
    Message::Query { client: reader, op }
}

/// The journal line of a write as it begins.
fn write_line(op: u32) -> Line
    ensures { result ≡ line WriteBegun 0 op op }
{
    Line::new(LineKind::WriteBegun, 0, op, op)
}

/// The journal line of a read as it begins; no timestamp is known yet.
fn read_line(reader: u32, op: u32) -> Line
    ensures { result ≡ line ReadBegun reader op 0 }
{
    Line::new(LineKind::ReadBegun, reader, op, 0)
}

impl<S: Setting, P: QuorumSystem, K: Signatures> Cluster<S, P, K> {
    /// Begins a write of a setting, and gives its timestamp.
    pub fn write(&mut self, tables: &mut Tables<'_>, setting: S) -> Result<u32, Refusal>
        ensures steps { (g : ℕ) × (g < 2 ^ 32) × (let of = state P.quorums K.book K.free in write_step S.kind (of self.old tables.old) setting g ≡ (numbered result, of self.new tables.new)) }
        ensures holds { MatchResult result (λ _. Kept self.old self.new) (λ _. Unchanged self.old self.new tables.old tables.new) }
        ensures tables { SameTables tables.old tables.new }
    {
        self.closed(tables)?;
        let opened = open_operations(self.writer, tables);
        begin_refusal(self.writer, opened, self.messages, self.lines)?;
        let op = self.writer.op + 1;
        let encoding = setting.encode();
        let Some(tag) = self.signatures.sign(op, encoding) else {
            return Err(Refusal::SigningRefused);
        };
        self.messages
            .append(tables.messages, store_message(op, encoding, tag));
        self.lines.append(tables.lines, write_line(op));
        self.writer = Client::new::<S>(Phase::Storing, op);
        Ok(op)
    }

    /// Begins a read of a reader, and gives its operation number.
    pub fn read(&mut self, tables: &mut Tables<'_>, reader: u32) -> Result<u32, Refusal>
        ensures steps { let of = state P.quorums K.book K.free in read_step S.kind (of self.old tables.old) reader ≡ (numbered result, of self.new tables.new) }
        ensures holds { Stays result self.old self.new tables.old tables.new }
        ensures tables { SameTables tables.old tables.new }
    {
        self.closed(tables)?;
        read_refusal(self.writer, tables, reader, self.messages, self.lines)?;
        let readers = &mut *tables.readers;
        let op = reader_at(readers, reader).client.op + 1;
        put_client(
            &mut self.writer,
            readers,
            reader,
            Client::new::<S>(Phase::Querying, op),
        );
        self.messages
            .append(tables.messages, query_message(reader, op));
        self.lines.append(tables.lines, read_line(reader, op));
        Ok(op)
    }
}
