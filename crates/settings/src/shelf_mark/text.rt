// The text of a shelf mark, and its padding.
ghost use Rattle.std.specs.Prelude.{◌≡◌, ◌≤◌, true, length};
ghost use Rattle.settings.specs.Marks.{all_visible, is_text, text_length, pad};

use encodings::encoding::Encoding;

/// The most characters that a mark has.
const TEXT_LIMIT: usize = 32;

/// Whether every byte is a visible character of ASCII.
fn all_visible(text: &[u8]) -> bool
    ensures { result ≡ all_visible text.now }
{
    text.iter().all(|byte| byte.is_ascii_graphic())
}

/// Whether the bytes are 1 to 32 visible characters.
pub(super) fn is_text(text: &[u8]) -> bool
    ensures { result ≡ is_text text.now }
{
    (1..=TEXT_LIMIT).contains(&text.len()) && all_visible(text)
}

/// How many bytes stand before the first zero.
pub(super) fn text_length(bytes: &[u8]) -> usize
    ensures value { result ≡ text_length bytes.now }
    ensures within { result ≤ length bytes.now }
{
    bytes
        .iter()
        .position(|&byte| byte == 0)
        .unwrap_or(bytes.len())
}

/// The text, and then zeros.
pub(super) fn padded(text: &[u8]) -> Encoding
    requires { length text.now ≤ 32 }
    ensures { result ≡ pad text.now }
{
    let mut bytes = [0; 32];
    bytes[..text.len()].copy_from_slice(text);
    bytes
}
