// What every kind of setting offers, and the laws that it keeps.
ghost use Rattle.std.specs.Prelude.{◌≡◌};
ghost use Rattle.settings.specs.Kinds.{Kind, KindLaws};

use encodings::encoding::Encoding;

/// A kind of setting: values that are written as exactly 32 bytes.
pub trait Setting: Copy {
    ghost kind: { Kind Self };

    /// The setting that holds before any was written.
    fn initial() -> Self
        ensures { result ≡ kind.initial };

    /// The setting's bytes.
    fn encode(self) -> Encoding
        ensures { result ≡ kind.encode self };

    /// Whether the bytes are the encoding of a setting.
    fn is_encoding(bytes: Encoding) -> bool
        ensures { result ≡ kind.is_encoding bytes };

    /// The setting with these bytes, or the initial one where they are no encoding.
    fn decode(bytes: Encoding) -> Self
        ensures { result ≡ kind.decode bytes };

    ghost lawful: { KindLaws kind };
}
