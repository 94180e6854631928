//! A pair of indices.
ghost use Rattle.std.specs.Prelude.{◌≡◌};
ghost use Rattle.polygon_pairs.specs.Sweeps.{key_of, pair_of};

/// A pair of polygons, by their indices.
#[repr(C)]
#[derive(Clone, Copy)]
pub struct HullPair {
    /// The index of the first.
    pub first: usize,
    /// The index of the second, which is greater.
    pub second: usize,
}

/// Returns the pair of two indices, the lesser one first.
pub(crate) fn pair_between(i: usize, j: usize) -> HullPair
    ensures { result ≡ pair_of i j }
{
    HullPair {
        first: i.min(j),
        second: i.max(j),
    }
}

/// Returns a number that is less for an earlier pair.
pub(crate) fn key(pair: &HullPair) -> u128
    ensures { result ≡ key_of pair.now }
{
    pair.first as u128 * (1u128 << 64) + pair.second as u128
}
