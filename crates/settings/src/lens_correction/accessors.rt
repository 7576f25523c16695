// The fields of a lens correction, each with its bounds.
//
// Each contract tells its bound: a type for each bound would have every caller take the number out again.
ghost use Rattle.std.specs.Prelude.{◌≡◌, ◌≤◌, unsigned_abs};

use super::LensCorrection;

impl LensCorrection {
    /// The spectral band, from 0 to 63.
    pub fn band(self) -> u32
        ensures value { result ≡ self.fields.band }
        ensures bound { result ≤ 63 }
    {
        self.fields.band
    }

    /// The first radial coefficient, in billionths, at most one in size.
    pub fn k1(self) -> i32
        ensures value { result ≡ self.fields.k1 }
        ensures bound { unsigned_abs result ≤ 1000000000 }
    {
        self.fields.k1
    }

    /// The second radial coefficient, in billionths, at most one in size.
    pub fn k2(self) -> i32
        ensures value { result ≡ self.fields.k2 }
        ensures bound { unsigned_abs result ≤ 1000000000 }
    {
        self.fields.k2
    }

    /// The third radial coefficient, in billionths, at most one in size.
    pub fn k3(self) -> i32
        ensures value { result ≡ self.fields.k3 }
        ensures bound { unsigned_abs result ≤ 1000000000 }
    {
        self.fields.k3
    }

    /// The first tangential coefficient, in billionths, at most one in size.
    pub fn p1(self) -> i32
        ensures value { result ≡ self.fields.p1 }
        ensures bound { unsigned_abs result ≤ 1000000000 }
    {
        self.fields.p1
    }

    /// The second tangential coefficient, in billionths, at most one in size.
    pub fn p2(self) -> i32
        ensures value { result ≡ self.fields.p2 }
        ensures bound { unsigned_abs result ≤ 1000000000 }
    {
        self.fields.p2
    }

    /// The centre's offset to the right, in thousandths of a pixel, at most 100,000 pixels in size.
    pub fn centre_x(self) -> i32
        ensures value { result ≡ self.fields.centre_x }
        ensures bound { unsigned_abs result ≤ 100000000 }
    {
        self.fields.centre_x
    }

    /// The centre's offset downwards, in thousandths of a pixel, at most 100,000 pixels in size.
    pub fn centre_y(self) -> i32
        ensures value { result ≡ self.fields.centre_y }
        ensures bound { unsigned_abs result ≤ 100000000 }
    {
        self.fields.centre_y
    }
}
