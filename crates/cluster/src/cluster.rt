// The cluster itself; its tables come along with each call.
ghost use Rattle.std.specs.Prelude.{◌≤◌};

use crate::front_list::FrontList;
use protocol::client::Client;
use replica_sets::replica_set::ReplicaSet;
use std::marker::PhantomData;

/// One writer, its readers, the replicas, and the messages between them.
///
/// The cluster owns the quorum system, the signature scheme and the writer. The tables come along with each call; of those
/// of messages and of journal lines it knows how many rows at the front are in use.
#[derive(Drop)]
pub struct Cluster<S, P, K> {
    pub(crate) system: P,
    pub(crate) signatures: K,
    pub(crate) faulty: ReplicaSet,
    // A flag beside the sizes, and no `Option` round them: each call would take it apart to change one list in its place.
    pub(crate) shut: bool,
    pub(crate) writer: Client,
    pub(crate) reader_places: usize,
    pub(crate) messages: FrontList,
    pub(crate) lines: FrontList,
    pub(crate) setting: PhantomData<S>,
    ghost readers_few: { reader_places ≤ 8 },
}
