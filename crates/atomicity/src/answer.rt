// The answer of a call that is not refused, as a value.
use cluster::completed_read::CompletedRead;
use cluster::delivery::Delivery;
use protocol::client::Reply;

/// What a call came to that was not refused.
#[derive(Drop)]
pub enum Answer<S> {
    /// A write began, of this timestamp.
    Written(u32),
    /// A read began, of this operation number.
    ReadBegun(u32),
    /// A request was delivered.
    Delivered(Delivery),
    /// A reply was delivered, or forged.
    Replied(Reply),
    /// A message was dropped.
    Dropped,
    /// A completed read was handed out.
    Collected(CompletedRead<S>),
}
