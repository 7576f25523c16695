// The digest of all answers and tables.
ghost use Rattle.std.specs.Prelude.{◌≡◌};
ghost use Rattle.stress.specs.Mixing.{mixed};

use cluster::journal::Line;
use cluster::reader::Reader;
use encodings::encoding::Encoding;
use protocol::client::Client;
use protocol::message::Message;
use protocol::version::Version;

/// What the digest is before anything is mixed in.
const START: u64 = 14_695_981_039_346_656_037;

/// What the digest is multiplied by with each number.
const FACTOR: u64 = 1_099_511_628_211;

/// One number for all that was mixed in.
#[derive(Drop)]
pub(crate) struct Digest {
    value: u64,
}

impl Digest {
    /// The digest of nothing.
    pub(crate) fn new() -> Digest
        ensures { result.value ≡ 14695981039346656037 }
    {
        Digest { value: START }
    }

    /// The digest as a number.
    pub(crate) fn value(&self) -> u64
        ensures { result ≡ self.now.value }
    {
        self.value
    }

    /// Mixes a number in.
    pub(crate) fn mix(&mut self, number: u32)
        ensures { self.new.value ≡ mixed self.old.value number }
    {
        self.value = (self.value ^ u64::from(number)).wrapping_mul(FACTOR);
    }

    /// Mixes numbers in, one after another.
    fn mix_all(&mut self, numbers: &[u32]) {
        for number in numbers {
            self.mix(*number);
        }
    }

    /// Mixes a number of rows in, modulo 2^32.
    pub(crate) fn mix_count(&mut self, rows: usize) {
        self.mix((rows & 0xffff_ffff) as u32);
    }

    /// Mixes an encoding in, as big-endian words.
    pub(crate) fn mix_encoding(&mut self, encoding: &Encoding) {
        let (words, _) = encoding.as_chunks();
        for word in words {
            self.mix(u32::from_be_bytes(*word));
        }
    }

    /// Mixes a version in.
    pub(crate) fn mix_version(&mut self, version: &Version<Encoding>) {
        self.mix(version.timestamp);
        self.mix_encoding(&version.value);
        self.mix(version.tag);
    }

    /// Mixes a client in.
    pub(crate) fn mix_client(&mut self, client: &Client) {
        self.mix(client.phase as u32);
        self.mix(client.op);
        self.mix(client.heard.bits());
        self.mix_version(&client.best);
    }

    /// Mixes a reader's row in.
    pub(crate) fn mix_reader(&mut self, reader: &Reader) {
        self.mix_client(&reader.client);
        match reader.completed {
            None => self.mix(0),
            Some(completed) => {
                self.mix_all(&[1, completed.op, completed.timestamp]);
                self.mix_encoding(&completed.encoding);
            }
        }
    }

    /// Mixes a message in: first its kind, by a number that the format of the digest has.
    pub(crate) fn mix_message(&mut self, message: &Message<Encoding>) {
        match *message {
            Message::Query { client, op } => self.mix_all(&[1, client, op]),
            Message::Store {
                client,
                op,
                version,
            } => {
                self.mix_all(&[2, client, op]);
                self.mix_version(&version);
            }
            Message::Value {
                replica,
                client,
                op,
                version,
            } => {
                self.mix_all(&[3, replica, client, op]);
                self.mix_version(&version);
            }
            Message::Ack {
                replica,
                client,
                op,
            } => self.mix_all(&[4, replica, client, op]),
        }
    }

    /// Mixes a journal line in.
    pub(crate) fn mix_line(&mut self, line: &Line) {
        self.mix_all(&[line.kind, line.client, line.op, line.timestamp]);
    }
}
