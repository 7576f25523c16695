// A shelf mark.
ghost use Rattle.std.specs.Prelude.{◌≡◌, true};
ghost use Rattle.settings.specs.Marks.{is_mark};

pub mod codec;
pub mod display;
pub mod error;
mod text;

/// 1 to 32 visible characters of ASCII, kept with zeros after them.
#[derive(Clone, Copy, Debug, PartialEq, Eq)]
pub struct ShelfMark {
    bytes: [u8; 32],
    ghost marked: { is_mark bytes ≡ true },
}
