// A call of a cluster as a value, and no closure: the theorem speaks of lists of calls.
use protocol::message::Message;

/// A call of a cluster.
#[derive(Clone, Copy, Debug, PartialEq, Eq)]
pub enum Call<S> {
    /// The writer begins to write the setting.
    Write(S),
    /// The reader begins to read.
    Read(u32),
    /// The request in flight at a place goes to a replica.
    DeliverRequest { message: usize, replica: u32 },
    /// The reply in flight at a place goes to its client.
    DeliverReply { message: usize },
    /// A faulty replica's reply goes to its client.
    ForgeReply(Message<S>),
    /// The message in flight at a place is lost.
    DropMessage(usize),
    /// The reader's completed read is handed out.
    Collect(u32),
}
