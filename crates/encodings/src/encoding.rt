// The bytes that stand for a setting.
ghost use Rattle.std.specs.Prelude.{◌≡◌};
ghost use Rattle.encodings.specs.Encodings.{same_bytes, no_bytes};

/// The bytes of a setting: exactly 32, by value.
pub type Encoding = [u8; 32];

/// Whether two encodings agree in every byte.
///
/// One body for those who compare in a call's way: the compiler writes it out where it stands, and calls a `==` that stands in several places.
pub fn same(a: Encoding, b: Encoding) -> bool
    ensures { result ≡ same_bytes a b }
{
    a == b
}

/// Zeros only: what fills a place that holds no setting yet.
pub fn blank() -> Encoding
    ensures { result ≡ no_bytes }
{
    [0; 32]
}
