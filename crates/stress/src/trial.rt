// What a run carries from round to round, and how answers go into it.
use crate::digest::Digest;
use crate::generator::Generator;
use crate::tally::{Outcome, Tally};
use alignment::alignment_refusal::AlignmentRefusal;
use alignment::alignment_run::AlignmentRun;
use atomicity::answer::Answer;
use cluster::completed_read::CompletedRead;
use cluster::delivery::Delivery;
use cluster::refusal::Refusal;
use protocol::client::Reply;
use settings::setting::Setting;

/// The generator, the digest and the counts.
#[derive(Drop)]
pub(crate) struct Trial {
    pub generator: Generator,
    pub digest: Digest,
    pub tally: Tally,
}

impl Trial {
    /// A run that begins at the seed.
    pub(crate) fn new(seed: u64) -> Trial {
        Trial {
            generator: Generator::new(seed),
            digest: Digest::new(),
            tally: Tally::new(),
        }
    }

    /// Mixes and counts a refusal by its number.
    fn refuse(&mut self, number: u32) {
        self.digest.mix(number);
        self.tally.count_refusal(number);
    }

    /// What a check told: nothing, or a refusal's number.
    pub(crate) fn note_check(&mut self, answer: Result<(), u32>) {
        match answer {
            Ok(()) => self.digest.mix(0),
            Err(number) => self.refuse(number),
        }
    }

    /// A call was refused.
    fn refuse_call(&mut self, refusal: Refusal) {
        self.digest.mix(0);
        self.refuse(refusal.number());
    }

    /// A call was accepted.
    fn accept(&mut self, outcome: Outcome) {
        self.digest.mix(1);
        self.tally.count(outcome);
    }

    /// A call was accepted, with this number in its answer.
    fn accept_with(&mut self, outcome: Outcome, number: u32) {
        self.accept(outcome);
        self.digest.mix(number);
    }

    /// What a call came to.
    pub(crate) fn note<S: Setting>(&mut self, answer: Result<Answer<S>, Refusal>) {
        match answer {
            Ok(answer) => self.note_answer(answer),
            Err(refusal) => self.refuse_call(refusal),
        }
    }

    /// The answer of a call that was accepted.
    fn note_answer<S: Setting>(&mut self, answer: Answer<S>) {
        match answer {
            Answer::Written(timestamp) => self.accept_with(Outcome::Written, timestamp),
            Answer::ReadBegun(op) => self.accept_with(Outcome::Reading, op),
            Answer::Delivered(delivery) => self.note_delivery(delivery),
            Answer::Replied(reply) => self.note_reply(reply),
            Answer::Dropped => self.accept(Outcome::Dropped),
            Answer::Collected(read) => self.note_collected(read),
        }
    }

    /// What the delivery of a request came to, by a number that the format of the digest has.
    fn note_delivery(&mut self, delivery: Delivery) {
        match delivery {
            Delivery::Answered => self.accept_with(Outcome::Answered, 1),
            Delivery::Unanswered => self.accept_with(Outcome::Unanswered, 2),
        }
    }

    /// What a reply came to, by a number that the format of the digest has.
    fn note_reply(&mut self, reply: Reply) {
        match reply {
            Reply::Heard => self.accept_with(Outcome::Heard, 1),
            Reply::Ignored => self.accept_with(Outcome::Ignored, 2),
            Reply::Turned => self.accept_with(Outcome::Turned, 3),
            Reply::Finished => self.accept_with(Outcome::Finished, 4),
        }
    }

    /// What was collected, and the alignment run that starts from it.
    fn note_collected<S: Setting>(&mut self, read: CompletedRead<S>) {
        self.accept(Outcome::Collected);
        self.digest.mix(read.reader());
        self.digest.mix(read.op());
        self.digest.mix(read.timestamp());
        self.digest.mix_encoding(&read.setting().encode());
        self.align(read);
    }

    /// Notes a random band.
    fn note_band<S: Setting>(&mut self, run: &mut AlignmentRun<S>) {
        let answer = run.note(self.generator.below(66));
        if answer.is_ok() {
            self.tally.count(Outcome::Noted);
        }
        self.note_check(answer.map_err(AlignmentRefusal::number));
    }

    /// An alignment run from begin to end.
    fn align<S: Setting>(&mut self, read: CompletedRead<S>) {
        let mut run = AlignmentRun::start(read);
        self.digest.mix(run.reader());
        self.digest.mix(run.timestamp());
        for _ in 0..4 {
            self.note_band(&mut run);
        }
        let noted = run.is_noted(self.generator.below(66));
        self.digest.mix(u32::from(noted));
        let closed = run.close();
        self.tally.count(Outcome::Closed);
        self.digest.mix(closed.timestamp);
        self.digest.mix(closed.bands);
    }
}
