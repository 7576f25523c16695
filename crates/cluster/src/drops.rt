// Messages that are lost.
ghost use Rattle.std.specs.Prelude.{◌≡◌};
ghost use Rattle.cluster.specs.Refusals.{numbered};
ghost use Rattle.cluster.specs.State.{state, Stays, SameTables};
ghost use Rattle.cluster.specs.Steps.{drop_step};

use crate::cluster::Cluster;
use crate::refusal::Refusal;
use crate::tables::Tables;
use quorums::quorum_system::QuorumSystem;
use settings::setting::Setting;
use signatures::signatures::Signatures;

impl<S: Setting, P: QuorumSystem, K: Signatures> Cluster<S, P, K> {
    /// Removes a message in flight; later messages move up by one.
    pub fn drop_message(&mut self, tables: &mut Tables<'_>, message: usize) -> Result<(), Refusal>
        ensures steps { let of = state P.quorums K.book K.free in drop_step (of self.old tables.old) message ≡ (numbered result, of self.new tables.new) }
        ensures holds { Stays result self.old self.new tables.old tables.new }
        ensures tables { SameTables tables.old tables.new }
    {
        self.closed(tables)?;
        if message >= self.messages.used {
            return Err(Refusal::NoMessage);
        }
        self.messages.remove(tables.messages, message);
        Ok(())
    }
}
