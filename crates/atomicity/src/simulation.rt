// A cluster from its making through a list of calls.
ghost use Rattle.std.specs.Prelude.{◌≡◌, ◌+◌, ◌≤◌, [], map, length, vec_len, vec_capacity, MatchResult};
ghost use Rattle.cluster.specs.Making.{made_state};
ghost use Rattle.cluster.specs.Refusals.{numbered};
ghost use Rattle.cluster.specs.State.{state, sizes_of, SameTables};
ghost use Rattle.atomicity.specs.Simulations.{Ran, Simulated};

use crate::answer::Answer;
use crate::call::Call;
use crate::calling::make_call;
use cluster::cluster::Cluster;
use cluster::making::Parts;
use cluster::refusal::Refusal;
use cluster::tables::Tables;
use quorums::quorum_system::QuorumSystem;
use settings::setting::Setting;
use signatures::signatures::Signatures;
use std::alloc::Global;

/// What a simulation ends with: the cluster, and the answer of each call.
#[derive(Drop)]
pub struct Simulation<S, P, K> {
    pub cluster: Cluster<S, P, K>,
    pub answers: Vec<Result<Answer<S>, Refusal>>,
}

/// Makes each call in turn, and keeps its answer.
fn run_calls<S: Setting, P: QuorumSystem, K: Signatures>(
    cluster: &mut Cluster<S, P, K>,
    tables: &mut Tables<'_>,
    calls: &[Call<S>],
    answers: &mut Vec<Result<Answer<S>, Refusal>>,
)
    requires empty { (answers.old.items ≡ []) × (vec_len answers.old ≡ 0) }
    requires room { length calls.now ≤ vec_capacity answers.old }
    ensures ran { let of = state P.quorums K.book K.free in Ran S.kind (of cluster.old tables.old) calls.now (map numbered answers.new.items) (of cluster.new tables.new) }
    ensures tables { SameTables tables.old tables.new }
{
    for call in calls {
        answers.push_reserved(make_call(cluster, tables, *call));
    }
}

/// Makes a cluster, makes each call in turn, and hands back cluster and answers.
///
/// Memory for the answers is got first: where there is none, nothing is made, no table is written, and the parts come back.
pub fn simulate<S: Setting, P: QuorumSystem, K: Signatures>(
    heap: Global,
    parts: Parts<P, K>,
    tables: &mut Tables<'_>,
    calls: &[Call<S>],
) -> Result<Simulation<S, P, K>, Parts<P, K>>
    ensures run { MatchResult result (λ x. Simulated S.kind (P.quorums parts.system) parts.faulty.members (made_state S.kind (P.quorums parts.system) (K.book parts.signatures) (K.free parts.signatures) parts.faulty.members parts.reader_count tables.old.replicas.now tables.old.readers.now (sizes_of tables.old)) calls.now (map numbered x.answers.items) (state P.quorums K.book K.free x.cluster tables.new)) (λ x. (x ≡ parts) × (tables.new ≡ tables.old)) }
    ensures tables { SameTables tables.old tables.new }
{
    let Ok(mut answers) = Vec::with_capacity(heap, calls.len()) else {
        return Err(parts);
    };
    let mut cluster = Cluster::new(parts, tables);
    run_calls(&mut cluster, tables, calls, &mut answers);
    Ok(Simulation { cluster, answers })
}
