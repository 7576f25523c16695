// The numbers that answers give.
use cluster::completed_read::CompletedRead;
use cluster::delivery::Delivery;
use cluster::refusal::Refusal;
use protocol::client::Reply;
use settings::shelf_mark::ShelfMark;

/// An answer that stands for a number.
///
/// The numbers are this program's own, so no enum of a library has them as its discriminants.
pub(crate) trait Number {
    fn number(self) -> u64;
}

impl Number for () {
    fn number(self) -> u64 {
        0
    }
}

impl Number for u32 {
    fn number(self) -> u64 {
        u64::from(self)
    }
}

impl Number for Delivery {
    fn number(self) -> u64 {
        match self {
            Delivery::Answered => 1,
            Delivery::Unanswered => 2,
        }
    }
}

impl Number for Reply {
    fn number(self) -> u64 {
        match self {
            Reply::Heard => 1,
            Reply::Ignored => 2,
            Reply::Turned => 3,
            Reply::Finished => 4,
        }
    }
}

impl Number for CompletedRead<ShelfMark> {
    fn number(self) -> u64 {
        self.timestamp().number()
    }
}

impl<T: Number> Number for Result<T, Refusal> {
    fn number(self) -> u64 {
        self.map_or_else(|refusal| 1000 + u64::from(refusal.number()), T::number)
    }
}
