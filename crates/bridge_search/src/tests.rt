ghost use Rattle.std.specs.Prelude.{IfOk};
ghost use Rattle.bridge_search.specs.Trees.{IsBridged};
ghost use Rattle.bridge_search.specs.Listed.{listed_tree};

use super::half::Half;
use super::listed::{Entry, Listed, bridges, put_behind};
use super::turned::Turned;
use lattice::{Point, before, crossing_at_or_before, orient};
use std::alloc::{AllocError, Global};
use std::test::Fail;

/// The coordinates of the two ends of a bridge.
type Ends = ((i64, i64), (i64, i64));

fn ends(bridge: (Point, Point)) -> Ends {
    let (first, last) = bridge;
    ((first.x(), first.y()), (last.x(), last.y()))
}

fn point(x: i64, y: i64) -> Result<Point, Fail> {
    Ok(Point::new(x, y).or(Err("out of range"))?)
}

fn entries_of(alloc: Global, pairs: &[(i64, i64)]) -> Result<Vec<Entry>, Fail>
    ensures { IfOk result (λ entries. IsBridged (listed_tree entries.items)) }
{
    let mut entries = Vec::new(alloc);
    for pair in pairs {
        put_behind(&mut entries, point(pair.0, pair.1)?)?;
    }
    Ok(entries)
}

/// Returns the upper and the lower bridge of two lists of points.
fn found(alloc: Global, left: &[(i64, i64)], right: &[(i64, i64)]) -> Result<(Ends, Ends), Fail> {
    let left = entries_of(alloc, left)?;
    let right = entries_of(alloc, right)?;
    let Some(u) = Listed::new(&left) else {
        return Err("empty".into());
    };
    let Some(w) = Listed::new(&right) else {
        return Err("empty".into());
    };
    let (upper, lower) = bridges(u, w).ok_or("order")?;
    Ok((ends(upper), ends(lower)))
}

/// Whether the lines ab and cd cross before m or at m; `None` if the points are not in order or not under the lines.
fn crossing(a: Point, b: Point, c: Point, d: Point, m: Point) -> Option<bool> {
    let in_order = before(a, b) && before(b, c) && before(c, d);
    if in_order && orient(a, b, c) < 0 && orient(b, c, d) < 0 {
        Some(crossing_at_or_before(a, b, c, d, m))
    } else {
        None
    }
}

/// Returns the upper and the lower bridge after a rotation by 180 degrees.
fn turned_bridges<H: Half>(u: H, w: H) -> Option<((Point, Point), (Point, Point))> {
    bridges(Turned::new(w), Turned::new(u))
}

#[test]
fn left_wall_bridge(rt: HostRuntime) -> Result<(), Fail> {
    let left = [(0, 0), (0, 1)];
    let right = [(0, 2), (1, 3), (2, 3)];
    let (upper, lower) = found(rt.alloc(), &left, &right)?;
    assert_eq!(rt; upper, ((0, 0), (0, 2)));
    assert_eq!(rt; lower, ((0, 0), (2, 3)));
    Ok(())
}

#[test]
fn left_wall_crossing(rt: HostRuntime) -> Result<(), Fail> {
    let (a, b) = (point(0, 0)?, point(0, 1)?);
    let (c, d) = (point(1, 3)?, point(2, 3)?);
    assert_eq!(rt; orient(a, b, c), -1);
    assert_eq!(rt; orient(b, a, d), 2);
    assert_eq!(rt; crossing(a, b, c, d, point(0, 2)?), Some(false));
    assert_eq!(rt; crossing(a, b, c, d, point(0, 3)?), Some(true));
    Ok(())
}

#[test]
fn left_wall_bridge_turned(rt: HostRuntime) -> Result<(), Fail> {
    let left = entries_of(rt.alloc(), &[(0, 0), (0, 1)])?;
    let right = entries_of(rt.alloc(), &[(0, 2), (1, 3), (2, 3)])?;
    let Some(u) = Listed::new(&left) else {
        return Err("empty".into());
    };
    let Some(w) = Listed::new(&right) else {
        return Err("empty".into());
    };
    let (upper, _) = turned_bridges(u, w).ok_or("order")?;
    assert_eq!(rt; ends(upper), ((-2, -3), (0, 0)));
    Ok(())
}

#[test]
fn diagonal_bridge(rt: HostRuntime) -> Result<(), Fail> {
    let (upper, lower) = found(rt.alloc(), &[(0, 0), (1, 1)], &[(2, 2), (3, 3)])?;
    assert_eq!(rt; upper, ((0, 0), (3, 3)));
    assert_eq!(rt; lower, ((0, 0), (3, 3)));
    Ok(())
}

#[test]
fn range_vertex_bridge(rt: HostRuntime) -> Result<(), Fail> {
    let left = [(-1048576, -1048576), (-1048576, 1048576)];
    let right = [(1048576, -1048576), (1048576, 1048576)];
    let (upper, lower) = found(rt.alloc(), &left, &right)?;
    assert_eq!(rt; upper, ((-1048576, 1048576), (1048576, 1048576)));
    assert_eq!(rt; lower, ((-1048576, -1048576), (1048576, -1048576)));
    Ok(())
}

/// Whether t is not over the line pq, or not under it, and not beyond its ends.
fn is_kept(p: Point, q: Point, t: Point, upper: bool) -> bool {
    let side = orient(p, q, t);
    if side == 0 {
        !before(t, p) && !before(q, t)
    } else {
        (side < 0) == upper
    }
}

fn are_kept(p: Point, q: Point, points: &[Point], upper: bool) -> bool {
    for t in points {
        if !is_kept(p, q, *t, upper) {
            return false;
        }
    }
    true
}

fn right_end(p: Point, left: &[Point], right: &[Point], upper: bool) -> Option<Point> {
    for q in right {
        if are_kept(p, *q, left, upper) && are_kept(p, *q, right, upper) {
            return Some(*q);
        }
    }
    None
}

/// Returns the bridge by a search of all pairs of points.
fn searched(left: &[Point], right: &[Point], upper: bool) -> Option<Ends> {
    for p in left {
        if let Some(q) = right_end(*p, left, right, upper) {
            return Some(ends((*p, q)));
        }
    }
    None
}

fn points_of(alloc: Global, pairs: &[(i64, i64)]) -> Result<Vec<Point>, Fail> {
    let mut points = Vec::new(alloc);
    for pair in pairs {
        points.push(point(pair.0, pair.1)?)?;
    }
    Ok(points)
}

/// Whether both searches find the same bridges.
fn agrees(alloc: Global, left: &[(i64, i64)], right: &[(i64, i64)]) -> Result<bool, Fail> {
    let (upper, lower) = found(alloc, left, right)?;
    let left = points_of(alloc, left)?;
    let right = points_of(alloc, right)?;
    Ok(
        searched(&left, &right, true) == Some(upper)
            && searched(&left, &right, false) == Some(lower),
    )
}

/// Returns the points of a grid of 4 columns and 3 rows that the bits of a number choose, from left to right.
fn chosen(alloc: Global, bits: u32) -> Result<Vec<(i64, i64)>, Fail> {
    let mut pairs = Vec::new(alloc);
    for place in 0u32..12 {
        if (bits >> place) & 1 == 1 {
            pairs.push(((place / 3) as i64, (place % 3) as i64))?;
        }
    }
    Ok(pairs)
}

/// Whether both searches agree for each split of the points into two lists of up to four.
fn agrees_at_each_cut(alloc: Global, pairs: &[(i64, i64)]) -> Result<bool, Fail> {
    for cut in 1..pairs.len() {
        let (left, right) = pairs.split_at(cut);
        if left.len() <= 4 && right.len() <= 4 && !agrees(alloc, left, right)? {
            return Ok(false);
        }
    }
    Ok(true)
}

#[test]
fn all_pairs_of_lists_of_a_grid(rt: HostRuntime) -> Result<(), Fail> {
    for bits in 0u32..4096 {
        let pairs = chosen(rt.alloc(), bits)?;
        assert!(rt; agrees_at_each_cut(rt.alloc(), &pairs)?, "at {bits}");
    }
    Ok(())
}
