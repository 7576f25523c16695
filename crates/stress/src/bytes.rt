// Random bytes, and what is made of bytes alone.
use crate::generator::Generator;
use cluster::journal::Line;
use encodings::encoding::{Encoding, blank};
use protocol::message::Message;
use protocol::version::Version;
use settings::setting::Setting;

/// A word of a lens correction, at a place from 0 to 7; its bounds are passed by one now and then.
fn random_lens_word(generator: &mut Generator, place: usize) -> u32 {
    match place {
        0 => generator.below(66),
        1..=5 => generator.below(2_000_000_003).wrapping_sub(1_000_000_001),
        _ => generator.below(200_000_003).wrapping_sub(100_000_001),
    }
}

/// Eight words, big-endian, each as it is drawn for its place.
fn random_words<F: Fn(&mut Generator, usize) -> u32>(generator: &mut Generator, word: F) -> Encoding
    requires { F.IsAlwaysCallable word }
{
    let mut bytes = blank();
    let (words, _) = bytes.as_chunks_mut();
    for (place, bytes) in words.iter_mut().enumerate() {
        *bytes = word(generator, place).to_be_bytes();
    }
    bytes
}

/// A text of visible characters, and then zeros.
fn random_text(generator: &mut Generator) -> Encoding {
    let mut bytes = blank();
    let length = 1 + generator.below(32) as usize;
    for byte in bytes.iter_mut().take(length) {
        *byte = 33 + generator.below(94) as u8;
    }
    bytes
}

/// Bytes of a setting, or of none.
pub(crate) fn random_bytes(generator: &mut Generator) -> Encoding {
    match generator.below(4) {
        0 => random_words(generator, |generator, _| generator.word()),
        1 => random_text(generator),
        2 => random_words(generator, random_lens_word),
        _ => random_words(generator, |generator, _| generator.below(3)),
    }
}

/// A setting.
pub(crate) fn random_setting<S: Setting>(generator: &mut Generator) -> S {
    S::decode(random_bytes(generator))
}

/// A version as tables hold it.
pub(crate) fn random_row(generator: &mut Generator) -> Version<Encoding> {
    Version {
        timestamp: generator.below(5),
        value: random_bytes(generator),
        tag: generator.below(5),
    }
}

/// A message as tables hold it.
pub(crate) fn random_message_row(generator: &mut Generator) -> Message<Encoding> {
    let kind = generator.below(4);
    let replica = generator.below(34);
    let client = generator.below(11);
    let op = generator.below(4);
    match kind {
        0 => Message::Query { client, op },
        1 => Message::Store {
            client,
            op,
            version: random_row(generator),
        },
        2 => Message::Value {
            replica,
            client,
            op,
            version: random_row(generator),
        },
        _ => Message::Ack {
            replica,
            client,
            op,
        },
    }
}

/// A journal line.
pub(crate) fn random_line(generator: &mut Generator) -> Line {
    Line {
        kind: generator.word(),
        client: generator.word(),
        op: generator.word(),
        timestamp: generator.word(),
    }
}
