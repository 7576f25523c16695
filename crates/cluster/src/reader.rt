// The rows of the readers' table.
use encodings::encoding::Encoding;
use protocol::client::Client;

/// A read that is finished and not collected yet: its operation, and the timestamp and bytes of the setting that it gives.
#[derive(Clone, Copy, Debug, PartialEq, Eq)]
pub struct Completed {
    pub op: u32,
    pub timestamp: u32,
    pub encoding: Encoding,
}

/// A reader's row.
#[derive(Clone, Copy, Debug, PartialEq, Eq)]
pub struct Reader {
    pub client: Client,
    pub completed: Option<Completed>,
}
