// What every kind of setting keeps, as code that is generic over them.
ghost use Rattle.std.specs.Prelude.{◌≡◌, true, false, length};
ghost use Rattle.encodings.specs.Encodings.{octets};

use encodings::encoding::Encoding;
use settings::setting::Setting;

/// Whether a setting's encoding passes the test, and is decoded to a setting with that encoding: so for every setting.
pub fn is_restored<S: Setting>(setting: S) -> bool
    ensures told { result ≡ true }
    ensures passes { S.kind.is_encoding (S.kind.encode setting) ≡ true }
    ensures back { S.kind.decode (S.kind.encode setting) ≡ setting }
{
    let encoding = setting.encode();
    let passes = S::is_encoding(encoding);
    let restored = S::decode(encoding).encode();
    passes & (restored == encoding)
}

/// Whether bytes that pass the test are encoded as those bytes, and others as the initial setting: so for all bytes.
pub fn are_met<S: Setting>(bytes: Encoding) -> bool
    ensures told { result ≡ true }
    ensures forth { S.kind.is_encoding bytes ≡ true → S.kind.encode (S.kind.decode bytes) ≡ bytes }
    ensures other { S.kind.is_encoding bytes ≡ false → S.kind.decode bytes ≡ S.kind.initial }
{
    let decoded = S::decode(bytes).encode();
    if S::is_encoding(bytes) {
        decoded == bytes
    } else {
        decoded == S::initial().encode()
    }
}

/// How many bytes a setting's encoding has.
pub fn encoded_len<S: Setting>(_setting: S) -> usize
    ensures { result ≡ length (octets (S.kind.encode _setting)) }
{
    32
}
