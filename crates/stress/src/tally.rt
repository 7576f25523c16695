// How often each answer and each refusal came.
use std::fmt;

/// What is counted of the calls that were accepted.
#[derive(Clone, Copy, Debug, PartialEq, Eq)]
pub(crate) enum Outcome {
    Written,
    Reading,
    Answered,
    Unanswered,
    Heard,
    Ignored,
    Turned,
    Finished,
    Dropped,
    Collected,
    Noted,
    Closed,
}

/// How many answers there are.
const ANSWERS: usize = 12;

/// The answers, each at its own number, as they are printed.
const IN_ORDER: [Outcome; ANSWERS] = [
    Outcome::Written,
    Outcome::Reading,
    Outcome::Answered,
    Outcome::Unanswered,
    Outcome::Heard,
    Outcome::Ignored,
    Outcome::Turned,
    Outcome::Finished,
    Outcome::Dropped,
    Outcome::Collected,
    Outcome::Noted,
    Outcome::Closed,
];

/// One more than the greatest refusal number.
const REFUSALS: usize = 31;

/// The last number of a refusal of a quorum system or a cluster.
const LAST_OF_CLUSTER: usize = 19;

/// The first number of a refusal of an alignment run.
const FIRST_OF_ALIGNMENT: usize = 29;

impl fmt::Display for Outcome {
    fn fmt<W: fmt::Write>(&self, f: &mut fmt::Formatter<W>) -> fmt::Result {
        f.write_str(match self {
            Outcome::Written => "written",
            Outcome::Reading => "reading",
            Outcome::Answered => "answered",
            Outcome::Unanswered => "unanswered",
            Outcome::Heard => "heard",
            Outcome::Ignored => "ignored",
            Outcome::Turned => "turned",
            Outcome::Finished => "finished",
            Outcome::Dropped => "dropped",
            Outcome::Collected => "collected",
            Outcome::Noted => "noted",
            Outcome::Closed => "closed",
        })
    }
}

/// How often an answer came.
#[derive(Clone, Copy, Debug, PartialEq, Eq)]
struct Count {
    answer: Outcome,
    times: u64,
}

/// How often each answer and each refusal came.
#[derive(Drop)]
pub(crate) struct Tally {
    answers: [Count; ANSWERS],
    refusals: [u64; REFUSALS],
}

impl Tally {
    /// Nothing is counted yet.
    pub(crate) fn new() -> Tally {
        Tally {
            answers: IN_ORDER.map(|answer| Count { answer, times: 0 }),
            refusals: [0; REFUSALS],
        }
    }

    /// Counts an answer.
    pub(crate) fn count(&mut self, answer: Outcome) {
        if let Some(count) = self.answers.get_mut(answer as usize) {
            count.times = count.times.wrapping_add(1);
        }
    }

    /// Counts a refusal by its number.
    pub(crate) fn count_refusal(&mut self, number: u32) {
        if let Some(times) = self.refusals.get_mut(number as usize) {
            *times = times.wrapping_add(1);
        }
    }

    /// Prints a line for each answer.
    fn print_answers(&self, rt: &impl Print) -> anyhow::Result<()> {
        for Count { answer, times } in self.answers {
            println!(rt; "answer {answer} {times}")?;
        }
        Ok(())
    }

    /// Prints a line for each answer, and one for each refusal's number.
    pub(crate) fn print(&self, rt: &impl Print) -> anyhow::Result<()> {
        self.print_answers(rt)?;
        for (number, times) in self.refusals.iter().enumerate() {
            if (1..=LAST_OF_CLUSTER).contains(&number) || number >= FIRST_OF_ALIGNMENT {
                println!(rt; "refusal {number} {times}")?;
            }
        }
        Ok(())
    }
}
