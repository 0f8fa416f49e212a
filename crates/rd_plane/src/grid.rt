//! The bounds of the grid EPSG:28992 in this register, and the greatest numbers that follow from them.

/// The least x of a corner, in millimetres.
pub const X_LOW: i64 = -100_000_000;

/// The greatest x of a corner, in millimetres.
pub const X_HIGH: i64 = 400_000_000;

/// The least y of a corner, in millimetres.
pub const Y_LOW: i64 = 200_000_000;

/// The greatest y of a corner, in millimetres.
pub const Y_HIGH: i64 = 800_000_000;

/// The most by which two corners differ in a coordinate, in millimetres: `Y_HIGH` - `Y_LOW`.
pub const SPAN: u64 = 600_000_000;

/// The greatest denominator of the point half way between two edges: 4 * `SPAN` * `SPAN`.
pub const DEN_HIGH: u64 = 1_440_000_000_000_000_000;
