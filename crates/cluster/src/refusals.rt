// The checks that stand before a call.
ghost use Rattle.std.specs.Prelude.{◌≡◌, ◌+◌, ◌-◌, ◌^◌, ◌<◌, ◌≤◌, not, leb, [], ◌∷◌, length, OnOk, nat_le, nat_lt};
ghost use Rattle.replica_sets.specs.Sets.{has};
ghost use Rattle.protocol.specs.Messages.{is_reply, replica_of, client_of};
ghost use Rattle.cluster.specs.Refusals.{told, first_refusal};
ghost use Rattle.cluster.specs.State.{sizes_of, sizes_kept, Sized};
ghost use Rattle.cluster.specs.Steps.{begin_checks, no_reader_at, reader_at, open_reads, open_operations};
ghost use Rattle.cluster.specs.Rooms.{Room};

use crate::clients::reader_at;
use crate::cluster::Cluster;
use crate::front_list::FrontList;
use crate::limits::LAST_OPERATION;
use crate::reader::Reader;
use crate::refusal::Refusal;
use crate::tables::{TableSizes, Tables};
use encodings::encoding::Encoding;
use protocol::client::Client;
use protocol::message::Message;
use quorums::quorum_system::QuorumSystem;
use replica_sets::replica_set::ReplicaSet;
use settings::setting::Setting;
use signatures::signatures::Signatures;

/// Why every call is refused, if it is.
fn closed_refusal(shut: bool, sized: bool) -> Result<(), Refusal>
    ensures { first_refusal ((shut, 8) ∷ (not sized, 5) ∷ []) ≡ told result }
{
    if shut {
        return Err(Refusal::Shut);
    }
    if !sized {
        return Err(Refusal::TableSize);
    }
    Ok(())
}

/// Why a client can't begin an operation, if it can't.
pub(crate) fn begin_refusal(
    client: Client,
    opened: usize,
    messages: FrontList,
    lines: FrontList,
) -> Result<(), Refusal>
    requires { opened ≤ 9 }
    ensures refusal { first_refusal (begin_checks client opened messages.used messages.places (lines.places - lines.used)) ≡ told result }
    ensures room { OnOk result (Room client messages lines) }
{
    if !client.phase.is_idle() {
        return Err(Refusal::OperationOpen);
    }
    if client.op >= LAST_OPERATION {
        return Err(Refusal::OperationsUsed);
    }
    if messages.is_full() {
        return Err(Refusal::InFlightFull);
    }
    if lines.free() < opened + 2 {
        return Err(Refusal::JournalFull);
    }
    Ok(())
}

/// The refusal where there is no such reader.
pub(crate) fn reader_refusal(readers: &[Reader], id: u32) -> Result<(), Refusal>
    ensures refusal { first_refusal ((no_reader_at readers.now id, 9) ∷ []) ≡ told result }
    ensures there { OnOk result ((0 < id) × (id ≤ length readers.now)) }
{
    if id == 0 || id as usize > readers.len() {
        return Err(Refusal::NoClient);
    }
    Ok(())
}

/// Why a reader can't begin a read, if it can't.
pub(crate) fn read_refusal(
    writer: Client,
    tables: &Tables<'_>,
    id: u32,
    messages: FrontList,
    lines: FrontList,
) -> Result<(), Refusal>
    requires { length tables.now.readers.now ≤ 8 }
    ensures refusal { first_refusal ((no_reader_at tables.now.readers.now id, 9) ∷ begin_checks (reader_at tables.now.readers.now id).client (open_operations writer tables.now.readers.now) messages.used messages.places (lines.places - lines.used)) ≡ told result }
    ensures room { OnOk result (Room (reader_at tables.now.readers.now id).client messages lines × (0 < id) × (id ≤ length tables.now.readers.now)) }
{
    reader_refusal(tables.readers, id)?;
    begin_refusal(
        reader_at(tables.readers, id).client,
        open_operations(writer, tables),
        messages,
        lines,
    )
}

/// Why a request can't be delivered, if it can't.
pub(crate) fn request_refusal(
    row: Message<Encoding>,
    replica: u32,
    replicas: u32,
) -> Result<(), Refusal>
    ensures { first_refusal ((is_reply row, 16) ∷ (nat_le replicas replica, 17) ∷ []) ≡ told result }
{
    if row.is_reply() {
        return Err(Refusal::WrongWay);
    }
    if replica >= replicas {
        return Err(Refusal::NoReplica);
    }
    Ok(())
}

/// Why a reply can't be delivered, if it can't.
pub(crate) fn reply_refusal(
    row: Message<Encoding>,
    replicas: u32,
    readers: usize,
) -> Result<(), Refusal>
    ensures { first_refusal ((not (is_reply row), 16) ∷ (nat_le replicas (replica_of row), 17) ∷ (nat_lt readers (client_of row), 9) ∷ []) ≡ told result }
{
    if !row.is_reply() {
        return Err(Refusal::WrongWay);
    }
    if row.replica() >= replicas {
        return Err(Refusal::NoReplica);
    }
    if row.client() as usize > readers {
        return Err(Refusal::NoClient);
    }
    Ok(())
}

/// Why a reply can't be forged, if it can't.
pub(crate) fn forge_refusal<S: Setting>(
    message: Message<S>,
    replicas: u32,
    faulty: ReplicaSet,
    readers: usize,
) -> Result<(), Refusal>
    ensures { first_refusal ((not (is_reply message), 16) ∷ (nat_le replicas (replica_of message), 17) ∷ (not (has faulty.members (replica_of message)), 18) ∷ (nat_lt readers (client_of message), 9) ∷ []) ≡ told result }
{
    if !message.is_reply() {
        return Err(Refusal::WrongWay);
    }
    if message.replica() >= replicas {
        return Err(Refusal::NoReplica);
    }
    if !faulty.contains(message.replica()) {
        return Err(Refusal::ReplicaCorrect);
    }
    if message.client() as usize > readers {
        return Err(Refusal::NoClient);
    }
    Ok(())
}

impl<S: Setting, P: QuorumSystem, K: Signatures> Cluster<S, P, K> {
    /// Why every call with these tables is refused, if it is.
    pub(crate) fn closed(&self, tables: &Tables<'_>) -> Result<(), Refusal>
        ensures refusal { first_refusal ((self.now.shut, 8) ∷ (not (sizes_kept P.quorums self.now (sizes_of tables.now)), 5) ∷ []) ≡ told result }
        ensures sized { OnOk result (Sized P.quorums self.now (sizes_of tables.now)) }
    {
        let made_with = TableSizes {
            replicas: self.system.replicas() as usize,
            readers: self.reader_places,
            messages: self.messages.places,
            lines: self.lines.places,
        };
        closed_refusal(self.shut, tables.sizes() == made_with)
    }
}

/// How many operations of readers are open.
pub(crate) fn open_reads(readers: &[Reader]) -> usize
    ensures count { result ≡ open_reads readers.now }
    ensures few { result ≤ length readers.now }
{
    readers
        .iter()
        .filter(|reader| !reader.client.phase.is_idle())
        .count()
}

/// How many operations are open.
pub(crate) fn open_operations(writer: Client, tables: &Tables<'_>) -> usize
    requires { length tables.now.readers.now ≤ 8 }
    ensures count { result ≡ open_operations writer tables.now.readers.now }
    ensures few { result ≤ 9 }
{
    let reads = open_reads(tables.readers);
    if writer.phase.is_idle() {
        reads
    } else {
        reads + 1
    }
}
