// What the delivery of a request came to.
ghost use Rattle.std.specs.Prelude.{Some};
ghost use Rattle.cluster.specs.Words.{delivery_word};

use std::fmt;

/// What the delivery of a request came to.
#[derive(Clone, Copy, Debug, PartialEq, Eq)]
pub enum Delivery {
    /// The replica's answer is in flight.
    Answered,
    /// The replica was silent, or is faulty.
    Unanswered,
}

impl fmt::Display for Delivery {
    ghost output = { λ d. Some (delivery_word d) };

    fn fmt<W: fmt::Write>(&self, f: &mut fmt::Formatter<W>) -> fmt::Result {
        f.write_str(match self {
            Delivery::Answered => "answered",
            Delivery::Unanswered => "unanswered",
        })
    }
}
