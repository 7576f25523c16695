// A digest of all that a cluster and its tables hold.
use crate::digest::Digest;
use crate::rows::Rows;
use cluster::cluster::Cluster;
use signatures::signatures::Signatures;

/// Mixes the first rows of a table in.
fn mix_rows<T, F: Fn(&mut Digest, &T)>(digest: &mut Digest, rows: &[T], used: usize, mix: F)
    requires { F.IsAlwaysCallable mix }
{
    for row in rows.iter().take(used) {
        mix(digest, row);
    }
}

/// Mixes in how far a scheme's book has come.
fn mix_signatures<K: Signatures>(digest: &mut Digest, signatures: &K) {
    digest.mix_count(signatures.entries());
    digest.mix(signatures.latest());
    digest.mix_count(signatures.free());
}

/// Mixes in all that the cluster and the tables hold.
pub(crate) fn mix_snapshot<S, P, K: Signatures>(
    digest: &mut Digest,
    cluster: &Cluster<S, P, K>,
    rows: &Rows,
) {
    let in_flight = cluster.messages_in_flight();
    let lines_used = cluster.journal_lines();
    digest.mix(u32::from(cluster.is_shut()));
    digest.mix(cluster.faulty().bits());
    digest.mix_client(&cluster.writer());
    digest.mix_count(in_flight);
    digest.mix_count(lines_used);
    mix_signatures(digest, cluster.signatures());
    mix_rows(
        digest,
        &rows.replicas,
        rows.replicas.len(),
        Digest::mix_version,
    );
    mix_rows(
        digest,
        &rows.readers,
        rows.readers.len(),
        Digest::mix_reader,
    );
    mix_rows(digest, &rows.messages, in_flight, Digest::mix_message);
    mix_rows(digest, &rows.lines, lines_used, Digest::mix_line);
}
