//! The lists of points that are polygons.
use hull_plain::PlainSet;
use hull_polygon::{Polygon, is_polygon};
use hull_set::{AddReply, HullSet};
use lattice::{Point, orient};
use std::alloc::Global;
use std::process::Abort;
use std::test::Fail;

/// The greatest limit of a set, by its number.
const LIMIT: u32 = 1048576;

/// The points of these coordinates.
fn points(alloc: Global, coordinates: &[(i64, i64)]) -> Result<Vec<Point>, Fail> {
    let mut points = Vec::new(alloc);
    for (x, y) in coordinates {
        points.push(Point::new(*x, *y)?)?;
    }
    Ok(points)
}

/// Whether the points are all different and the vertices of their set, as the plain set returns them.
fn are_vertices(alloc: Global, points: &[Point]) -> Result<bool, Fail> {
    let mut set = PlainSet::new(alloc, LIMIT);
    for p in points {
        if set.add(*p) != AddReply::Added {
            return Ok(false);
        }
    }
    Ok(set.vertices()?.as_slice() == points)
}

/// All lists of this many points of a grid of 3 by 3, by the digits of a number.
fn assert_all_lists(rt: &impl Abort, alloc: Global, count: u32, lists: u32) -> Result<(), Fail> {
    for number in 0..lists {
        let mut digits = number;
        let mut list = Vec::new(alloc);
        for _ in 0..count {
            list.push(Point::new((digits % 3) as i64, (digits / 3 % 3) as i64)?)?;
            digits /= 9;
        }
        assert_eq!(rt; is_polygon(&list), are_vertices(alloc, &list)?, "{list:?}");
        assert_eq!(rt;
            Polygon::new(&list).is_some(),
            is_polygon(&list),
            "{list:?}"
        );
    }
    Ok(())
}

#[test]
fn all_short_lists(rt: HostRuntime) -> Result<(), Fail> {
    assert_all_lists(&rt, rt.alloc(), 0, 1)?;
    assert_all_lists(&rt, rt.alloc(), 1, 9)?;
    assert_all_lists(&rt, rt.alloc(), 2, 81)?;
    assert_all_lists(&rt, rt.alloc(), 3, 729)?;
    assert_all_lists(&rt, rt.alloc(), 4, 6561)
}

/// Whether a list of six points turns left over the one at `i`.
fn lies_left(list: &[Point], i: usize) -> bool {
    match (
        list.get(i % 6),
        list.get((i % 6 + 1) % 6),
        list.get((i % 6 + 2) % 6),
    ) {
        (Some(u), Some(v), Some(w)) => orient(*u, *v, *w) > 0,
        _ => false,
    }
}

// Each vertex turns left, and the first is first, but the list goes around twice.
#[test]
fn a_list_that_winds_twice(rt: HostRuntime) -> Result<(), Fail> {
    let list = points(
        rt.alloc(),
        &[(0, 0), (10, 1), (5, 9), (1, 1), (9, 0), (6, 8)],
    )?;
    for i in 0usize..6 {
        assert!(rt; lies_left(&list, i), "turn {i}");
    }
    assert!(rt; !is_polygon(&list));
    assert!(rt; Polygon::new(&list).is_none());
    Ok(())
}

#[test]
fn lists_that_are_nearly_polygons(rt: HostRuntime) -> Result<(), Fail> {
    let square = points(rt.alloc(), &[(0, 0), (2, 0), (2, 2), (0, 2)])?;
    assert!(rt; is_polygon(&square));
    let straight = points(rt.alloc(), &[(0, 0), (1, 0), (2, 0), (2, 2), (0, 2)])?;
    assert!(rt; !is_polygon(&straight));
    let clockwise = points(rt.alloc(), &[(0, 0), (0, 2), (2, 2), (2, 0)])?;
    assert!(rt; !is_polygon(&clockwise));
    let from_another = points(rt.alloc(), &[(2, 0), (2, 2), (0, 2), (0, 0)])?;
    assert!(rt; !is_polygon(&from_another));
    let doubled = points(rt.alloc(), &[(0, 0), (2, 0), (2, 0), (2, 2), (0, 2)])?;
    assert!(rt; !is_polygon(&doubled));
    let dented = points(rt.alloc(), &[(0, 0), (4, 0), (2, 1), (4, 4), (0, 4)])?;
    assert!(rt; !is_polygon(&dented));
    Ok(())
}
