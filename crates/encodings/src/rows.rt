// Rows of a table.
ghost use Rattle.std.specs.Prelude.{◌≡◌, slice_index_or};

/// The row at a place, or `otherwise` where the table has no such place.
pub fn row_or<T: Copy>(rows: &[T], place: usize, otherwise: T) -> T
    ensures { result ≡ slice_index_or rows.now place otherwise }
{
    if place < rows.len() {
        rows[place]
    } else {
        otherwise
    }
}
