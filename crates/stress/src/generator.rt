// The generator of random numbers.
ghost use Rattle.std.specs.Prelude.{◌≡◌, ◌%◌, ◌<◌, if◌then◌else◌, Some, None, ◌==◌, bit_and};
ghost use Rattle.stress.specs.Mixing.{advanced, stirred, scrambled, drawn};

/// What the state grows by with each draw.
const STEP: u64 = 0x9E37_79B9_7F4A_7C15;

/// The two factors by which a state is stirred.
const FIRST_FACTOR: u64 = 0xBF58_476D_1CE4_E5B9;

const SECOND_FACTOR: u64 = 0x94D0_49BB_1331_11EB;

/// A generator of random numbers: its state.
#[derive(Drop)]
pub(crate) struct Generator {
    state: u64,
}

/// The number with its upper part mixed into its lower one, times the factor.
fn stir(number: u64, shift: u32, factor: u64) -> u64
    requires { shift < 64 }
    ensures { result ≡ stirred number shift factor }
{
    (number ^ (number >> shift)).wrapping_mul(factor)
}

impl Generator {
    /// A generator that begins at the seed.
    pub(crate) fn new(seed: u64) -> Generator
        ensures { result.state ≡ seed }
    {
        Generator { state: seed }
    }

    /// The next number of 64 bits.
    fn next(&mut self) -> u64
        ensures state { self.new.state ≡ advanced self.old.state }
        ensures value { result ≡ scrambled (advanced self.old.state) }
    {
        self.state = self.state.wrapping_add(STEP);
        let z = stir(stir(self.state, 30, FIRST_FACTOR), 27, SECOND_FACTOR);
        z ^ (z >> 31)
    }

    /// The upper 32 bits of the next number.
    pub(crate) fn word(&mut self) -> u32
        ensures state { self.new.state ≡ advanced self.old.state }
        ensures value { result ≡ drawn self.old.state }
    {
        (self.next() >> 32) as u32
    }

    /// A number below `count`.
    pub(crate) fn below(&mut self, count: u32) -> u32
        requires { 0 < count }
        ensures state { self.new.state ≡ advanced self.old.state }
        ensures value { result ≡ drawn self.old.state % count }
        ensures bound { result < count }
    {
        self.word() % count
    }

    /// One of so many rows, or none where there are no rows; then nothing is drawn.
    pub(crate) fn place(&mut self, rows: usize) -> Option<usize>
        ensures state { self.new.state ≡ (if rows == 0 then self.old.state else advanced self.old.state) }
        ensures value { elim result [ Some place ↦ (place < rows) × (place ≡ drawn self.old.state % rows) | None ↦ rows ≡ 0 ] }
    {
        if rows == 0 {
            return None;
        }
        Some(self.word() as usize % rows)
    }

    /// True once in `count` times.
    pub(crate) fn chance(&mut self, count: u32) -> bool
        requires { 0 < count }
        ensures state { self.new.state ≡ advanced self.old.state }
        ensures value { result ≡ (drawn self.old.state % count == 0) }
    {
        self.below(count) == 0
    }

    /// A word, and'ed with another.
    pub(crate) fn mask(&mut self) -> u32
        ensures state { self.new.state ≡ advanced (advanced self.old.state) }
        ensures value { result ≡ bit_and (drawn self.old.state) (drawn (advanced self.old.state)) }
    {
        let first = self.word();
        first & self.word()
    }
}
