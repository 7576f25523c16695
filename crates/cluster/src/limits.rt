// The limits of a cluster, in one place.

/// The most readers that a cluster has: one for each camera of a house.
pub const MOST_READERS: usize = 8;

/// The most messages that can be in flight.
pub const MOST_MESSAGES: usize = 4096;

/// The fewest journal lines: a beginning and an end.
pub const FEWEST_LINES: usize = 2;

/// The most journal lines.
pub const MOST_LINES: usize = 8192;

/// The last operation number of a client.
pub const LAST_OPERATION: u32 = 65535;
