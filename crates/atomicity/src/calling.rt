// Calls of a cluster made from values.
ghost use Rattle.std.specs.Prelude.{◌≡◌, MatchResult};
ghost use Rattle.cluster.specs.Refusals.{numbered};
ghost use Rattle.cluster.specs.State.{state, Kept, Unchanged, SameTables};
ghost use Rattle.atomicity.specs.Simulations.{Steps};

use crate::answer::Answer;
use crate::call::Call;
use cluster::cluster::Cluster;
use cluster::refusal::Refusal;
use cluster::tables::Tables;
use quorums::quorum_system::QuorumSystem;
use settings::setting::Setting;
use signatures::signatures::Signatures;

/// Makes a call, and gives its answer.
pub fn make_call<S: Setting, P: QuorumSystem, K: Signatures>(
    cluster: &mut Cluster<S, P, K>,
    tables: &mut Tables<'_>,
    call: Call<S>,
) -> Result<Answer<S>, Refusal>
    ensures steps { let of = state P.quorums K.book K.free in Steps S.kind (of cluster.old tables.old) call (numbered result) (of cluster.new tables.new) }
    ensures holds { MatchResult result (λ _. Kept cluster.old cluster.new) (λ _. Unchanged cluster.old cluster.new tables.old tables.new) }
    ensures tables { SameTables tables.old tables.new }
{
    Ok(match call {
        Call::Write(setting) => Answer::Written(cluster.write(tables, setting)?),
        Call::Read(reader) => Answer::ReadBegun(cluster.read(tables, reader)?),
        Call::DeliverRequest { message, replica } => Answer::Delivered(cluster.deliver_request(
            tables, message, replica,
        )?),
        Call::DeliverReply { message } => Answer::Replied(cluster.deliver_reply(tables, message)?),
        Call::ForgeReply(message) => Answer::Replied(cluster.forge_reply(tables, message)?),
        Call::DropMessage(message) => {
            cluster.drop_message(tables, message)?;
            Answer::Dropped
        }
        Call::Collect(reader) => Answer::Collected(cluster.collect(tables, reader)?),
    })
}
