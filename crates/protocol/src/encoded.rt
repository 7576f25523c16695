// Versions and messages as tables hold them: with the setting's bytes in place of the setting.
ghost use Rattle.std.specs.Prelude.{◌≡◌};
ghost use Rattle.protocol.specs.Versions.{with_value};
ghost use Rattle.protocol.specs.Messages.{each_value};

use crate::message::Message;
use crate::version::Version;
use encodings::encoding::Encoding;
use settings::setting::Setting;
use std::marker::PhantomData;

/// The version with its setting's bytes.
pub fn encode_version<S: Setting>(version: Version<S>) -> Version<Encoding>
    ensures { result ≡ with_value S.kind.encode version }
{
    version.map(S::encode)
}

/// The version with the setting that its bytes are decoded to.
pub fn decode_version<S: Setting>(version: Version<Encoding>) -> Version<S>
    ensures { result ≡ with_value S.kind.decode version }
{
    // No plainer by `map`: its closure would have to take the kind along, as below.
    Version {
        timestamp: version.timestamp,
        value: S::decode(version.value),
        tag: version.tag,
    }
}

/// The message with its setting's bytes.
pub fn encode_message<S: Setting>(message: Message<S>) -> Message<Encoding>
    ensures { result ≡ each_value S.kind.encode message }
{
    message.map(S::encode)
}

/// The message with the setting that its bytes are decoded to.
pub fn decode_message<S: Setting>(row: Message<Encoding>) -> Message<S>
    ensures { result ≡ each_value S.kind.decode row }
{
    // The closure takes the kind along: no proof is made for a function that is passed and whose result alone names a type parameter.
    let kind = PhantomData::<S>;
    row.map(
        move |bytes: Encoding| -> S
            ensures { result ≡ S.kind.decode bytes }
        {
            let _: PhantomData<S> = kind;
            S::decode(bytes)
        },
    )
}
