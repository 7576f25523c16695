// A set of bands: numbers below 64, one bit each.
ghost use Rattle.std.specs.Prelude.{◌≡◌, ℕ, ◌^◌, ◌<◌, false, Some, None, MatchResult, OnOk, bit_or};
ghost use Rattle.alignment.specs.Bands.{noted, noted_count};
ghost use Rattle.alignment.specs.Refusals.{alignment_number, note_refusal};

use crate::alignment_refusal::AlignmentRefusal;

/// How many bands there are.
const BANDS: u32 = 64;

/// A set of bands, as the mask of its members' numbers.
#[derive(Clone, Copy, Debug, PartialEq, Eq)]
pub(crate) struct BandSet {
    mask: u64,
}

impl BandSet {
    /// The set with no member.
    #[tactic(auto, using(replica_sets::proofs::Members::has_none))]
    pub(crate) fn none() -> BandSet
        ensures { (b : ℕ) → noted result.mask b ≡ false }
    {
        BandSet { mask: 0 }
    }

    /// Whether the band is a member; no band past 63 is.
    #[tactic(auto, using(crate::proofs::Noting::past_last), unfolding(replica_sets::specs::Sets::has))]
    pub(crate) fn contains(self, band: u32) -> bool
        ensures { result ≡ noted self.mask band }
    {
        self.mask.unbounded_shr(band) % 2 == 1
    }

    /// Whether the band can be noted; if not, why.
    pub(crate) fn check(self, band: u32) -> Result<(), AlignmentRefusal>
        ensures refusal { MatchResult result (λ _. note_refusal self.mask band ≡ None) (λ e. note_refusal self.mask band ≡ Some (alignment_number e)) }
        ensures free { OnOk result ((band < 64) × (noted self.mask band ≡ false)) }
    {
        if band >= BANDS {
            return Err(AlignmentRefusal::NoSuchBand);
        }
        if self.contains(band) {
            return Err(AlignmentRefusal::BandTaken);
        }
        Ok(())
    }

    /// The set with the band as a member too.
    pub(crate) fn with(self, band: u32) -> BandSet
        requires { band < 64 }
        ensures { result.mask ≡ bit_or self.mask (2 ^ band) }
    {
        BandSet {
            mask: self.mask | 1 << band,
        }
    }

    /// How many members there are.
    #[tactic(auto, using(replica_sets::proofs::Members::ones_count))]
    pub(crate) fn len(self) -> u32
        ensures { result ≡ noted_count self.mask }
    {
        self.mask.count_ones()
    }
}
