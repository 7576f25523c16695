// What is left of a run that was closed.

/// A closed run: the timestamp of the read that it started from, and how many bands were noted.
#[derive(Clone, Copy, Debug, PartialEq, Eq)]
pub struct Closed {
    pub timestamp: u32,
    pub bands: u32,
}
