// A run: the alignment of images by a setting that was read to the end.
ghost use Rattle.std.specs.Prelude.{◌≡◌, ℕ, ◌+◌, false, ◌||◌, Some, None, MatchResult, OnErr, OnOk, ◌==◌};
ghost use Rattle.alignment.specs.Bands.{noted, noted_count};
ghost use Rattle.alignment.specs.Refusals.{alignment_number, note_refusal};

use crate::alignment_refusal::AlignmentRefusal;
use crate::bands::BandSet;
use crate::closed::Closed;
use cluster::completed_read::CompletedRead;
use settings::setting::Setting;

/// A run that is open: the completed read that it started from, and the bands noted so far.
///
/// It starts from a completed read alone, which it uses up, and can be neither copied nor made by hand.
#[derive(Drop)]
pub struct AlignmentRun<S> {
    read: CompletedRead<S>,
    bands: BandSet,
}

impl<S: Setting> AlignmentRun<S> {
    /// Starts a run from a completed read, which is used up. No band is noted.
    ///
    /// A read of timestamp 0 will do: a camera that was never measured counts as perfect.
    pub fn start(read: CompletedRead<S>) -> AlignmentRun<S>
        ensures read { result.read ≡ read }
        ensures none { (b : ℕ) → noted result.bands.mask b ≡ false }
    {
        AlignmentRun {
            read,
            bands: BandSet::none(),
        }
    }

    /// Notes a band, from 0 to 63 and each once; any number is met.
    ///
    /// Refused with 29 where there is no such band, then with 30 where it is taken. A refusal changes nothing.
    #[tactic(auto, using(crate::proofs::Noting::one_more, crate::proofs::Noting::one_counted))]
    pub fn note(&mut self, band: u32) -> Result<(), AlignmentRefusal>
        ensures answer { MatchResult result (λ _. note_refusal self.old.bands.mask band ≡ None) (λ e. note_refusal self.old.bands.mask band ≡ Some (alignment_number e)) }
        ensures accepted { OnOk result ((b : ℕ) → noted self.new.bands.mask b ≡ (noted self.old.bands.mask b || b == band)) }
        ensures counted { OnOk result (noted_count self.new.bands.mask ≡ noted_count self.old.bands.mask + 1) }
        ensures refused { OnErr result (self.new ≡ self.old) }
        ensures read { self.new.read ≡ self.old.read }
    {
        self.bands.check(band)?;
        self.bands = self.bands.with(band);
        Ok(())
    }

    /// Whether the band is noted; no band past 63 is.
    pub fn is_noted(&self, band: u32) -> bool
        ensures { result ≡ noted self.now.bands.mask band }
    {
        self.bands.contains(band)
    }

    /// The reader whose read the run started from.
    pub fn reader(&self) -> u32
        ensures { result ≡ self.now.read.reader }
    {
        self.read.reader()
    }

    /// The timestamp of the setting, or 0 where none was written.
    pub fn timestamp(&self) -> u32
        ensures { result ≡ self.now.read.timestamp }
    {
        self.read.timestamp()
    }

    /// The setting that was read.
    pub fn setting(&self) -> S
        ensures { result ≡ self.now.read.setting }
    {
        self.read.setting()
    }

    /// Closes the run: the timestamp of its read, and how many bands were noted.
    pub fn close(self) -> Closed
        ensures { result ≡ record { timestamp = self.read.timestamp; bands = noted_count self.bands.mask } }
    {
        Closed {
            timestamp: self.timestamp(),
            bands: self.bands.len(),
        }
    }
}
