/// Why two numbers are not a point, or not a direction.
#[derive(Clone, Copy, PartialEq, Eq, Debug)]
pub enum LatticeFault {
    /// A number is larger in size than [`COORDINATE_LIMIT`](crate::COORDINATE_LIMIT).
    OutOfRange,
    /// Both components are zero.
    ZeroDirection,
}
