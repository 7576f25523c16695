// What holds of every run.
ghost use Rattle.std.specs.Prelude.{◌≡◌};
ghost use Rattle.atomicity.specs.Examples.{Telling};
ghost use Rattle.atomicity.specs.Summaries.{Atomic};

use quorums::quorum_system::QuorumSystem;
use settings::setting::Setting;

/// For every kind of setting and every quorum system: a cluster made with any arguments keeps its claims along every list of calls.
pub fn every_run_is_atomic_and_progresses<S: Setting, P: QuorumSystem>()
    ensures { (p : P) → Atomic S.kind (P.quorums p) }
{}

/// The claims tell histories apart: they refuse a stale read, a new value before an old one, a phase that was served and never
/// ends, a replica that does not answer, and a reader that is handed what its read did not give; and they accept an overlapping run.
pub fn claims_tell_histories_apart()
    ensures { Telling }
{}
