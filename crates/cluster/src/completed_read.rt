// A read that is finished, as it is handed out.
ghost use Rattle.std.specs.Prelude.{◌≡◌};

/// A finished read: the reader, its operation, and the timestamp and setting that it gives.
///
/// It comes from a cluster's `collect` alone, and can be neither copied nor made by hand.
#[derive(Drop)]
pub struct CompletedRead<S> {
    pub(crate) reader: u32,
    pub(crate) op: u32,
    pub(crate) timestamp: u32,
    pub(crate) setting: S,
}

impl<S: Copy> CompletedRead<S> {
    /// The reader whose read it is.
    pub fn reader(&self) -> u32
        ensures { result ≡ self.now.reader }
    {
        self.reader
    }

    /// The number of the read.
    pub fn op(&self) -> u32
        ensures { result ≡ self.now.op }
    {
        self.op
    }

    /// The timestamp of the setting, or 0 where none was written.
    pub fn timestamp(&self) -> u32
        ensures { result ≡ self.now.timestamp }
    {
        self.timestamp
    }

    /// The setting that was read.
    pub fn setting(&self) -> S
        ensures { result ≡ self.now.setting }
    {
        self.setting
    }
}
