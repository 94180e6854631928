//! A hull of points that are only added.
use hull_plain::{GrowingHull, Place};
use lattice::{Direction, Point};
use std::process::Abort;
use std::test::Fail;

/// Makes a point, which has to be in range.
fn at(rt: &impl Abort, x: i64, y: i64) -> Point {
    match Point::new(x, y) {
        Ok(point) => point,
        Err(_) => panic!(rt; "{x} {y} is no point"),
    }
}

#[test]
fn a_hull_grows(rt: HostRuntime) -> Result<(), Fail> {
    let mut hull = GrowingHull::new(rt.alloc());
    let added = [(0, 0), (4, 0), (2, 1), (4, 4), (0, 4), (2, 0), (4, 4)];
    for (x, y) in added {
        let p = at(&rt, x, y);
        let place = hull.place(p);
        assert_eq!(rt; hull.add(p), Ok(place));
        assert!(rt; hull.place(p) != Place::Outside);
    }
    assert_eq!(rt; hull.area2(), 32);
    let far = at(&rt, 9, 2);
    assert_eq!(rt; hull.add(at(&rt, 2, 2)), Ok(Place::Inside));
    assert_eq!(rt; hull.add(far), Ok(Place::Outside));
    assert_eq!(rt; hull.place(far), Place::On);
    let wanted = [(0, 0), (4, 0), (9, 2), (4, 4), (0, 4)];
    let vertices = hull.vertices()?;
    assert_eq!(rt; vertices.len(), wanted.len());
    for (vertex, (x, y)) in vertices.iter().zip(wanted) {
        assert_eq!(rt; (vertex.x(), vertex.y()), (x, y));
    }
    assert_eq!(rt; hull.area2(), 52);
    match Direction::new(1, 3) {
        Ok(d) => assert_eq!(rt; hull.extreme(d), Some(at(&rt, 4, 4))),
        Err(_) => panic!(rt; "no direction"),
    }
    assert_eq!(rt;
        hull.tangents(at(&rt, 20, 2)),
        Some((at(&rt, 4, 0), at(&rt, 4, 4)))
    );
    Ok(())
}
