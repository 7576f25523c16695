// The list at the front of a table: of the messages in flight, or of the journal's lines.
ghost use Rattle.std.specs.Prelude.{◌≡◌, ◌+◌, ◌-◌, ◌<◌, ◌≤◌, [], ◌∷◌, ◌++◌, length, nat_le, slice_get, take};
ghost use Rattle.std.specs.List.{remove};

/// How many rows a table has, and how many at its front are in use.
///
/// The rows themselves are their owner's memory and come along with each call, so the length stands apart from them.
#[derive(Clone, Copy, Debug, PartialEq, Eq)]
pub(crate) struct FrontList {
    pub(crate) places: usize,
    pub(crate) used: usize,
    ghost fits: { used ≤ places },
}

impl FrontList {
    /// A list with no row, in a table of so many.
    pub(crate) fn empty(places: usize) -> FrontList
        ensures places { result.places ≡ places }
        ensures used { result.used ≡ 0 }
    {
        FrontList { places, used: 0 }
    }

    /// Whether each row of the table is in use.
    pub(crate) fn is_full(self) -> bool
        ensures { result ≡ nat_le self.places self.used }
    {
        self.used >= self.places
    }

    /// How many rows of the table are not in use.
    pub(crate) fn free(self) -> usize
        ensures { result ≡ self.places - self.used }
    {
        self.places - self.used
    }

    /// The row at a place of the list, if there is one.
    pub(crate) fn row<T: Copy>(self, rows: &[T], place: usize) -> Option<T>
        requires { length rows.now ≡ self.places }
        ensures { result ≡ slice_get (take self.used rows.now) place }
    {
        rows[..self.used].get(place).copied()
    }

    /// Appends a row.
    pub(crate) fn append<T: Copy>(&mut self, rows: &mut [T], row: T)
        requires room { self.old.used < self.old.places }
        requires table { length rows.old ≡ self.old.places }
        ensures rows { take self.new.used rows.new ≡ take self.old.used rows.old ++ (row ∷ []) }
        ensures places { self.new.places ≡ self.old.places }
    {
        rows[self.used] = row;
        self.used += 1;
    }

    /// Takes a row out; later rows move up by one.
    pub(crate) fn remove<T: Copy>(&mut self, rows: &mut [T], place: usize)
        requires there { place < self.old.used }
        requires table { length rows.old ≡ self.old.places }
        ensures rows { take self.new.used rows.new ≡ remove (take self.old.used rows.old) place }
        ensures places { self.new.places ≡ self.old.places }
    {
        rows[place..self.used].rotate_left(1);
        self.used -= 1;
    }
}
