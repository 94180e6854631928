//! The distance of two hulls, compared with the least of the distances of the points of each from the other.
use super::meetings::{
    Fraction, all_vertices, assert_of, is_less, polygon_of, slow_distance, slow_meet, small_sets,
    to_line, to_point, vertices_of,
};
use hull_polygon::{Distance, Polygon};
use lattice::Point;
use std::alloc::Global;
use std::process::Abort;
use std::test::Fail;

/// Returns the least squared distance of the points of the one from the other, given the one found so far.
fn least_from(ones: &[Point], others: &[Point], other: Point, so_far: Fraction) -> Fraction {
    let mut least = so_far;
    for p in ones {
        let distance = slow_distance(others, other, *p);
        if is_less(distance, least) {
            least = distance;
        }
    }
    least
}

/// Returns the squared distance of two disjoint sets, from each point of each.
fn slow_apart(ones: &[Point], one: Point, others: &[Point], other: Point) -> Fraction {
    let least = least_from(ones, others, other, to_point(one, other));
    least_from(others, ones, one, least)
}

/// The squared distance that is returned for the two is that by the definition, and the points are theirs.
fn assert_returned(
    rt: &impl Abort,
    ones: &[Point],
    others: &[Point],
    returned: Distance,
    slow: Fraction,
) {
    let found = match returned {
        Distance::Zero => Fraction { above: 0, below: 1 },
        Distance::Vertices(c, d) => {
            assert_of(rt, ones.contains(&c) && others.contains(&d), ones);
            to_point(c, d)
        }
        Distance::VertexAndEdge(c, a, b) => {
            assert_of(rt, ones.contains(&c), ones);
            assert_of(rt, others.contains(&a) && others.contains(&b), ones);
            to_line(a, b, c)
        }
        Distance::EdgeAndVertex(a, b, d) => {
            assert_of(rt, ones.contains(&a) && ones.contains(&b), ones);
            assert_of(rt, others.contains(&d), ones);
            to_line(a, b, d)
        }
    };
    assert_of(rt, !is_less(found, slow) && !is_less(slow, found), ones);
}

/// The distance of two sets is as by the definition.
fn assert_distance(rt: &impl Abort, ones: &[Point], others: &[Point], found: Option<Distance>) {
    match (found, ones.first(), others.first()) {
        (Some(returned), Some(one), Some(other)) => {
            let meet = slow_meet(ones, others);
            assert_of(rt, (returned == Distance::Zero) == meet, ones);
            if !meet {
                assert_returned(
                    rt,
                    ones,
                    others,
                    returned,
                    slow_apart(ones, *one, others, *other),
                );
            }
        }
        (returned, one, other) => {
            assert_of(
                rt,
                returned.is_none() && (one.is_none() || other.is_none()),
                ones,
            );
        }
    }
}

/// Each of the ones is as far from each of the others as by the definition, and the other way round.
fn assert_distances(
    rt: &impl Abort,
    alloc: Global,
    ones: &[Vec<Point>],
    others: &[Vec<Point>],
) -> Result<(), Fail> {
    let all_others = all_vertices(rt, alloc, others)?;
    for one in ones {
        let one_vertices = vertices_of(rt, alloc, one)?;
        let polygon = polygon_of(rt, &one_vertices);
        for (other, other_vertices) in others.iter().zip(&all_others) {
            let against = polygon_of(rt, other_vertices);
            assert_distance(rt, one, other, polygon.distance(&against));
            assert_distance(rt, other, one, against.distance(&polygon));
        }
    }
    Ok(())
}

#[test]
fn distances_of_all_small_sets(rt: HostRuntime) -> Result<(), Fail> {
    let ones = small_sets(rt.alloc(), 3, 0, 0)?;
    assert_distances(&rt, rt.alloc(), &ones, &small_sets(rt.alloc(), 2, 5, 2)?)?;
    let pairs = small_sets(rt.alloc(), 2, 1, 3)?;
    assert_distances(&rt, rt.alloc(), &pairs, &small_sets(rt.alloc(), 2, 0, 0)?)
}
