// A setting with its timestamp and its signature's tag.
ghost use Rattle.std.specs.Prelude.{◌≡◌};
ghost use Rattle.protocol.specs.Versions.{Computes, initial_version, genuine, with_value};

use encodings::encoding::same;
use settings::setting::Setting;
use signatures::signatures::Signatures;

/// A value, the timestamp that it was written under, and its signature's tag.
#[derive(Clone, Copy, Debug, PartialEq, Eq)]
pub struct Version<V> {
    pub timestamp: u32,
    pub value: V,
    pub tag: u32,
}

impl<V> Version<V> {
    /// The version with what `f` makes of its value in the place of it.
    pub(crate) fn map<W, F: FnOnce(V) -> W>(self, f: F) -> Version<W>
        requires { F.IsAlwaysCallable f }
        ensures { (g : V → W) → Computes (F.post f) g → result ≡ with_value g self }
    {
        Version {
            timestamp: self.timestamp,
            value: f(self.value),
            tag: self.tag,
        }
    }
}

/// What holds before any write: the initial setting under timestamp 0.
pub fn initial_version<S: Setting>() -> Version<S>
    ensures { result ≡ initial_version S.kind }
{
    Version {
        timestamp: 0,
        value: S::initial(),
        tag: 0,
    }
}

/// Whether the version is the initial one or was signed.
pub fn is_genuine<S: Setting, K: Signatures>(signatures: &K, version: Version<S>) -> bool
    ensures { result ≡ genuine S.kind (K.book signatures.now) version }
{
    let encoding = version.value.encode();
    let initial = version.timestamp == 0
        && version.tag == 0
        && same(encoding, S::initial().encode());
    initial || signatures.verify(version.timestamp, encoding, version.tag)
}
