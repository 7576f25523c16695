// The clients of a cluster: 0 is the writer, the readers are 1, 2, ..
//
// A client is told by its number, as in messages and journal lines; an enum of the two would be made from it for each use.
// Writer and readers are two parameters: one belongs to the cluster and the other to the tables.
ghost use Rattle.std.specs.Prelude.{◌≡◌, ◌<◌, ◌≤◌, length, take, Some, slice_get, slice_index_or};
ghost use Rattle.protocol.specs.declared.message.Message.TheVariants.{Store};
ghost use Rattle.cluster.specs.Steps.{no_version, reader_at, client_at, writer_with, readers_with, completed_of, readers_done, end_line};

use crate::front_list::FrontList;
use crate::journal::{Line, LineKind};
use crate::reader::{Completed, Reader};
use crate::tables::Tables;
use encodings::encoding::Encoding;
use protocol::client::Client;
use protocol::message::Message;
use protocol::version::Version;

/// The version that a replica keeps.
pub(crate) fn version_at(tables: &Tables<'_>, replica: u32) -> Version<Encoding>
    requires { replica < length tables.now.replicas.now }
    ensures { result ≡ slice_index_or tables.now.replicas.now replica no_version }
{
    tables.replicas[replica as usize]
}

/// The message at a place of the list of those in flight, if there is one.
pub(crate) fn message_at(
    list: FrontList,
    tables: &Tables<'_>,
    place: usize,
) -> Option<Message<Encoding>>
    requires { length tables.now.messages.now ≡ list.places }
    ensures { result ≡ slice_get (take list.used tables.now.messages.now) place }
{
    list.row(tables.messages, place)
}

/// The row of a reader.
pub(crate) fn reader_at(readers: &[Reader], id: u32) -> Reader
    requires counted { 0 < id }
    requires there { id ≤ length readers.now }
    ensures { result ≡ reader_at readers.now id }
{
    readers[(id - 1) as usize]
}

/// The client of a number.
pub(crate) fn client_at(writer: Client, tables: &Tables<'_>, id: u32) -> Client
    requires { id ≤ length tables.now.readers.now }
    ensures { result ≡ client_at writer tables.now.readers.now id }
{
    if id == 0 {
        writer
    } else {
        reader_at(tables.readers, id).client
    }
}

/// Puts a client in the place of the client of its number.
pub(crate) fn put_client(writer: &mut Client, readers: &mut [Reader], id: u32, client: Client)
    requires { id ≤ length readers.old }
    ensures writer { writer.new ≡ writer_with writer.old id client }
    ensures readers { readers.new ≡ readers_with readers.old id client }
{
    if id == 0 {
        *writer = client;
    } else {
        let completed = reader_at(readers, id).completed;
        readers[id as usize - 1] = Reader { client, completed };
    }
}

/// What a finished read leaves to be collected.
fn completed_of(client: Client) -> Completed
    ensures { result ≡ completed_of client }
{
    let encoding = client.best.value;
    Completed {
        op: client.op,
        timestamp: client.best.timestamp,
        encoding,
    }
}

/// Puts a client whose operation is finished in the place of what it was; a reader then has a completed read.
pub(crate) fn finish_client(
    writer: &mut Client,
    readers: &mut [Reader],
    id: u32,
    before: Client,
    client: Client,
)
    requires { id ≤ length readers.old }
    ensures writer { writer.new ≡ writer_with writer.old id client }
    ensures readers { readers.new ≡ readers_done readers.old id before client }
{
    if id == 0 {
        *writer = client;
    } else {
        let completed = Some(completed_of(before));
        readers[id as usize - 1] = Reader { client, completed };
    }
}

/// The message by which a reader has its best version stored.
pub(crate) fn write_back(id: u32, client: Client) -> Message<Encoding>
    ensures { result ≡ Store id client.op client.best }
{
    let version = client.best;
    Message::Store {
        client: id,
        op: client.op,
        version,
    }
}

/// The journal line of a finished operation.
pub(crate) fn end_line(id: u32, client: Client) -> Line
    ensures { result ≡ end_line id client }
{
    if id == 0 {
        Line::new(LineKind::WriteFinished, id, client.op, client.op)
    } else {
        Line::new(LineKind::ReadFinished, id, client.op, client.best.timestamp)
    }
}
