//! The sweep over the boxes.
ghost use Rattle.std.specs.Prelude.{◌≡◌, ◌≢◌, ◌∷◌, [], ◌+◌, ◌*◌, ◌<◌, ◌≤◌, ◌^◌, List, length, map, slice_index};
ghost use Rattle.std.specs.List.{All};
ghost use Rattle.std.specs.List.Sorted.{IsNonDecreasingBy};
ghost use Rattle.hull_polygon.specs.Polygons.{IsShortPolygon};
ghost use Rattle.polygon_pairs.specs.Boxes.{AreBoxes, IsBoxAmong};
ghost use Rattle.polygon_pairs.specs.Sweeps.{pair_of, Adds, ArePairsOf, IsPairIfWithin};
ghost use Rattle.polygon_pairs.specs.declared.pair.HullPair.{HullPair};

use crate::boxed::{Boxed, are_across, begins_beyond};
use crate::near::is_within;
use crate::pair::{HullPair, pair_between};
use hull_polygon::Length;
use lattice::Point;

/// Writes a pair after those that were found, if the array has space for it, and returns how many there are with it.
fn note(out: &mut [HullPair], count: u64, pair: HullPair) -> u64
    requires { count + 1 < 2 ^ 64 }
    ensures { Adds (pair ∷ []) out.old count out.new result }
{
    if (count as usize) < out.len() {
        out[count as usize] = pair;
    }
    count + 1
}

/// Finds the pair of two boxes, unless its polygons are farther apart than the length.
fn find_pair(
    polygons: &[&[Point]],
    here: &Boxed,
    there: &Boxed,
    reach: Length,
    out: &mut [HullPair],
    count: u64,
) -> u64
    requires polygons { All (λ o. IsShortPolygon o.now) polygons.now }
    requires here { IsBoxAmong polygons.now here.now }
    requires there { IsBoxAmong polygons.now there.now }
    requires apart { here.now.index ≢ there.now.index }
    requires few { count + 1 < 2 ^ 64 }
    ensures { (more : List HullPair) × Adds more out.old count out.new result
        × IsPairIfWithin reach polygons.now (pair_of here.now.index there.now.index) more }
{
    if are_across(here, there, reach) {
        return count;
    }
    let pair = pair_between(here.index as usize, there.index as usize);
    if is_within(polygons, pair, reach) {
        note(out, count, pair)
    } else {
        count
    }
}

/// Finds the pairs of the box at a place and the later ones, up to the first one that begins farther right than the length.
fn sweep_from(
    polygons: &[&[Point]],
    boxes: &[Boxed],
    at: usize,
    reach: Length,
    out: &mut [HullPair],
    count: u64,
) -> u64
    requires polygons { All (λ o. IsShortPolygon o.now) polygons.now }
    requires boxes { AreBoxes polygons.now (length polygons.now) boxes.now }
    requires sorted { IsNonDecreasingBy (λ b. b.left) boxes.now }
    requires within { at < length boxes.now }
    requires few { count + length boxes.now < 2 ^ 64 }
    ensures found { (more : List HullPair) × Adds more out.old count out.new result
        × ArePairsOf (λ a b. a ≡ at) reach polygons.now (map (λ b. b.index) boxes.now) more }
    ensures few { result ≤ count + length boxes.now }
{
    let here = &boxes[at];
    let mut total = count;
    for j in at + 1..boxes.len() {
        let there = &boxes[j];
        if begins_beyond(here, there, reach) {
            return total;
        }
        total = find_pair(polygons, here, there, reach, out, total);
    }
    total
}

/// Finds all pairs and returns how many there are; as many as the array takes are written to its front.
pub(crate) fn sweep_all(
    polygons: &[&[Point]],
    boxes: &[Boxed],
    reach: Length,
    out: &mut [HullPair],
) -> u64
    requires polygons { All (λ o. IsShortPolygon o.now) polygons.now }
    requires boxes { AreBoxes polygons.now (length polygons.now) boxes.now }
    requires sorted { IsNonDecreasingBy (λ b. b.left) boxes.now }
    requires few { length boxes.now < 2 ^ 32 }
    ensures { (more : List HullPair) × Adds more out.old 0 out.new result
        × ArePairsOf (λ a b. Unit {0}) reach polygons.now (map (λ b. b.index) boxes.now) more }
{
    let mut count = 0;
    for i in 0..boxes.len() {
        count = sweep_from(polygons, boxes, i, reach, out, count);
    }
    count
}
