// The turns of a workload.

/// The sum of what so many turns give; each turn is told its number, from 0.
pub(crate) fn sum_of<F: FnMut(u32) -> u64>(count: u32, turn: F) -> u64
    requires { (state : F) (number : _) → F.pre state number }
{
    (0..count).map(turn).fold(0, u64::wrapping_add)
}
