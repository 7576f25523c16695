// An entry of a book of signatures.
use encodings::encoding::Encoding;

/// What was signed, and the tag that the scheme gave it.
#[derive(Clone, Copy, Debug, PartialEq, Eq, Default)]
pub struct Entry {
    pub timestamp: u32,
    pub encoding: Encoding,
    pub tag: u32,
}
