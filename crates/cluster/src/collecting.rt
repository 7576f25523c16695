// How finished reads are handed out.
ghost use Rattle.std.specs.Prelude.{◌≡◌, ◌<◌, ◌≤◌, [], ◌∷◌, length, OnOk};
ghost use Rattle.cluster.specs.Refusals.{told, numbered, first_refusal};
ghost use Rattle.cluster.specs.State.{state, Stays, SameTables};
ghost use Rattle.cluster.specs.Steps.{no_reader_at, handed_out, without_completed, collect_step};

use crate::clients::reader_at;
use crate::cluster::Cluster;
use crate::completed_read::CompletedRead;
use crate::reader::{Completed, Reader};
use crate::refusal::Refusal;
use crate::refusals::reader_refusal;
use crate::tables::Tables;
use quorums::quorum_system::QuorumSystem;
use settings::setting::Setting;
use signatures::signatures::Signatures;

/// A completed read as it is handed out.
fn hand_out<S: Setting>(reader: u32, completed: Completed) -> CompletedRead<S>
    ensures { result ≡ handed_out S.kind reader completed }
{
    CompletedRead {
        reader,
        op: completed.op,
        timestamp: completed.timestamp,
        setting: S::decode(completed.encoding),
    }
}

/// A reader's row without its completed read.
fn emptied(row: Reader) -> Reader
    ensures { result ≡ without_completed row }
{
    Reader {
        client: row.client,
        completed: None,
    }
}

impl<S: Setting, P: QuorumSystem, K: Signatures> Cluster<S, P, K> {
    /// Moves out a reader's completed read.
    pub fn collect(
        &mut self,
        tables: &mut Tables<'_>,
        reader: u32,
    ) -> Result<CompletedRead<S>, Refusal>
        ensures steps { let of = state P.quorums K.book K.free in collect_step S.kind (of self.old tables.old) reader ≡ (numbered result, of self.new tables.new) }
        ensures holds { Stays result self.old self.new tables.old tables.new }
        ensures tables { SameTables tables.old tables.new }
    {
        self.closed(tables)?;
        let readers = &mut *tables.readers;
        reader_refusal(readers, reader)?;
        let row = reader_at(readers, reader);
        let completed = row.completed.ok_or(Refusal::NothingCompleted)?;
        readers[reader as usize - 1] = emptied(row);
        Ok(hand_out(reader, completed))
    }
}
