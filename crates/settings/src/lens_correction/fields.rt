// The fields of a lens correction, before anything is known of them.

/// The fields of a lens correction, each of any value.
#[derive(Clone, Copy, Debug, PartialEq, Eq)]
pub struct LensFields {
    /// The spectral band.
    pub band: u32,
    /// The first radial coefficient, in billionths.
    pub k1: i32,
    /// The second radial coefficient, in billionths.
    pub k2: i32,
    /// The third radial coefficient, in billionths.
    pub k3: i32,
    /// The first tangential coefficient, in billionths.
    pub p1: i32,
    /// The second tangential coefficient, in billionths.
    pub p2: i32,
    /// The centre's offset to the right, in thousandths of a pixel.
    pub centre_x: i32,
    /// The centre's offset downwards, in thousandths of a pixel.
    pub centre_y: i32,
}
