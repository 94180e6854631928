//! Segments, other hulls, extents and nearest points, compared with slow answers by their definitions.
use hull_plain::PlainSet;
use hull_polygon::{Meeting, Nearest, Polygon, Separation, Strip, Witness};
use hull_set::{AddReply, HullSet};
use lattice::{Direction, Point, distance_squared, orient, product};
use std::alloc::Global;
use std::process::Abort;
use std::test::Fail;

/// The greatest limit of a set, by its number.
const LIMIT: u32 = 1048576;

/// Returns the points of a grid of 3 by 3 whose bits are set, a mesh apart and around the origin.
fn grid_points(alloc: Global, bits: u32, mesh: i64) -> Result<Vec<Point>, Fail> {
    let mut points = Vec::new(alloc);
    for place in 0u32..9 {
        if bits >> place & 1 == 1 {
            let right = (place % 3) as i64 - 1;
            let up = (place / 3) as i64 - 1;
            points.push(Point::new(right.wrapping_mul(mesh), up.wrapping_mul(mesh))?)?;
        }
    }
    Ok(points)
}

/// The vertices of the set of these points.
pub(crate) fn vertices_of(
    rt: &impl Abort,
    alloc: Global,
    points: &[Point],
) -> Result<Vec<Point>, Fail> {
    let mut set = PlainSet::new(alloc, LIMIT);
    for p in points {
        assert_eq!(rt; set.add(*p), AddReply::Added);
    }
    Ok(set.vertices()?)
}

/// The vertices of each of these sets.
pub(crate) fn all_vertices(
    rt: &impl Abort,
    alloc: Global,
    sets: &[Vec<Point>],
) -> Result<Vec<Vec<Point>>, Fail> {
    let mut all = Vec::new(alloc);
    for points in sets {
        all.push(vertices_of(rt, alloc, points)?)?;
    }
    Ok(all)
}

/// Returns those sets of the small grid, a mesh apart, all of whose points are vertices: any other set has the vertices of one of them, and a polygon
/// knows only the vertices of a set.
fn polygons_of_grid(rt: &impl Abort, alloc: Global, mesh: i64) -> Result<Vec<Vec<Point>>, Fail> {
    let mut polygons = Vec::new(alloc);
    for bits in 0u32..512 {
        let points = grid_points(alloc, bits, mesh)?;
        let vertices = vertices_of(rt, alloc, &points)?;
        if vertices.len() == points.len() {
            polygons.push(vertices)?;
        }
    }
    Ok(polygons)
}

/// Whether `v` lies between `a` and `b`.
fn is_between(a: i64, b: i64, v: i64) -> bool {
    a <= v && v <= b || b <= v && v <= a
}

/// Whether `q` lies on the segment from `a` to `b`.
fn is_on_segment(a: Point, b: Point, q: Point) -> bool {
    orient(a, b, q) == 0 && is_between(a.x(), b.x(), q.x()) && is_between(a.y(), b.y(), q.y())
}

/// Whether `q` lies in the triangle, which turns left.
fn is_in_triangle(a: Point, b: Point, c: Point, q: Point) -> bool {
    orient(a, b, c) > 0 && orient(a, b, q) >= 0 && orient(b, c, q) >= 0 && orient(c, a, q) >= 0
}

/// Whether `q` lies on a segment or in a triangle of these points whose first vertex is `a`.
fn is_covered_from(a: Point, points: &[Point], q: Point) -> bool {
    for b in points {
        if is_on_segment(a, *b, q) {
            return true;
        }
        for c in points {
            if is_in_triangle(a, *b, *c, q) {
                return true;
            }
        }
    }
    false
}

/// Whether the points cover `q`, by the definition: each segment is looked at from one of its ends, and each triangle from one of its vertices, the
/// earliest.
fn slow_covers(points: &[Point], q: Point) -> bool {
    for first in 0..points.len() {
        if is_covered_from(points[first], &points[first..], q) {
            return true;
        }
    }
    false
}

/// Whether the segments cross between their ends, either way.
fn is_crossing(a: Point, b: Point, c: Point, d: Point) -> bool {
    orient(a, b, c) < 0 && orient(a, b, d) > 0 && orient(c, d, a) > 0 && orient(c, d, b) < 0
}

/// Whether the points and the segment intersect, neither end being covered, by the definition. Each two points are considered once, since a segment
/// crosses another in either direction.
fn slow_crosses(points: &[Point], a: Point, b: Point) -> bool {
    for first in 0..points.len() {
        let s = points[first];
        if is_on_segment(a, b, s) {
            return true;
        }
        for t in &points[first..] {
            if is_crossing(s, *t, a, b) || is_crossing(s, *t, b, a) {
                return true;
            }
        }
    }
    false
}

/// The result for these points is true.
pub(crate) fn assert_of(rt: &impl Abort, truth: bool, points: &[Point]) {
    assert!(rt; truth, "{points:?}");
}

/// The separating direction separates the points from the others, and one of them is its farthest.
fn assert_parts(rt: &impl Abort, points: &[Point], others: &[Point], found: Separation) {
    let reach = found.direction.product(found.farthest);
    for p in points {
        assert_of(rt, found.direction.product(*p) <= reach, points);
    }
    for q in others {
        assert_of(rt, found.direction.product(*q) > reach, points);
    }
    assert_of(rt, points.contains(&found.farthest), points);
}

/// Returns the polygon of the vertices of a set.
pub(crate) fn polygon_of<'a>(rt: &impl Abort, vertices: &'a [Point]) -> Polygon<'a> {
    match Polygon::new(vertices) {
        Some(polygon) => polygon,
        None => panic!(rt; "the corners of a set are an outline"),
    }
}

/// A point, and whether the points cover it, by the definition.
#[derive(Clone, Copy)]
struct Seen {
    point: Point,
    covered: bool,
}

/// Returns the points of a grid this far around the origin, and whether the points cover them.
fn seen_grid(alloc: Global, points: &[Point], reach: i64, mesh: i64) -> Result<Vec<Seen>, Fail> {
    let mut seen = Vec::new(alloc);
    for x in reach.wrapping_neg()..reach.wrapping_add(1) {
        for y in reach.wrapping_neg()..reach.wrapping_add(1) {
            let point = Point::new(x.wrapping_mul(mesh), y.wrapping_mul(mesh))?;
            let covered = slow_covers(points, point);
            seen.push(Seen { point, covered })?;
        }
    }
    Ok(seen)
}

/// The answer of a segment is that of the definition, and a separation is one.
fn assert_segment(rt: &impl Abort, points: &[Point], polygon: Polygon<'_>, a: &Seen, b: &Seen) {
    let intersects = a.covered || b.covered || slow_crosses(points, a.point, b.point);
    assert_of(
        rt,
        polygon.intersects_segment(a.point, b.point) == intersects,
        points,
    );
    match polygon.separation_from_segment(a.point, b.point) {
        Some(found) => {
            assert_of(rt, !intersects, points);
            assert_parts(rt, points, &[a.point, b.point], found);
        }
        None => assert_of(rt, intersects || points.is_empty(), points),
    }
}

/// All segments of a grid this far around the origin are answered as by the definition.
fn assert_segments(
    rt: &impl Abort,
    alloc: Global,
    vertices: &[Point],
    reach: i64,
    mesh: i64,
) -> Result<(), Fail> {
    let polygon = polygon_of(rt, vertices);
    let seen = seen_grid(alloc, vertices, reach, mesh)?;
    for a in &seen {
        for b in &seen {
            assert_segment(rt, vertices, polygon, a, b);
        }
    }
    Ok(())
}

#[test]
fn all_segments_of_a_small_grid(rt: HostRuntime) -> Result<(), Fail> {
    for vertices in &polygons_of_grid(&rt, rt.alloc(), 1)? {
        assert_segments(&rt, rt.alloc(), vertices, 2, 1)?;
    }
    Ok(())
}

// The outermost points of the sets and of the segments are at the limit of coordinates.
#[test]
fn segments_at_the_limit(rt: HostRuntime) -> Result<(), Fail> {
    for vertices in &polygons_of_grid(&rt, rt.alloc(), 1099511627776)? {
        assert_segments(&rt, rt.alloc(), vertices, 1, 1099511627776)?;
    }
    Ok(())
}

/// A number of whole units over another, at least 1.
#[derive(Clone, Copy, Debug)]
pub(crate) struct Fraction {
    pub(crate) above: i128,
    pub(crate) below: i128,
}

/// Whether one is less than the other.
pub(crate) fn is_less(u: Fraction, v: Fraction) -> bool {
    u.above.wrapping_mul(v.below) < v.above.wrapping_mul(u.below)
}

/// The squared distance of two points.
pub(crate) fn to_point(a: Point, q: Point) -> Fraction {
    Fraction {
        above: distance_squared(a, q),
        below: 1,
    }
}

/// The squared distance of `q` from the line from `a` to `b`.
pub(crate) fn to_line(a: Point, b: Point, q: Point) -> Fraction {
    let side = orient(a, b, q);
    Fraction {
        above: side.wrapping_mul(side),
        below: distance_squared(a, b),
    }
}

/// Whether the angle at `a` between `b` and `q` is acute, by the law of cosines.
fn is_acute(a: Point, b: Point, q: Point) -> bool {
    distance_squared(a, b).wrapping_add(distance_squared(a, q)) > distance_squared(b, q)
}

/// The squared distance of `q` from points that do not cover it, from each of them and each segment between two.
pub(crate) fn slow_distance(points: &[Point], first: Point, q: Point) -> Fraction {
    let mut least = to_point(first, q);
    for a in points {
        if is_less(to_point(*a, q), least) {
            least = to_point(*a, q);
        }
        for b in points {
            if is_acute(*a, *b, q) && is_acute(*b, *a, q) && is_less(to_line(*a, *b, q), least) {
                least = to_line(*a, *b, q);
            }
        }
    }
    least
}

/// The squared distance that an answer returns.
fn returned_distance(place: Nearest, q: Point) -> Fraction {
    match place {
        Nearest::Covered => to_point(q, q),
        Nearest::Vertex(c) => to_point(c, q),
        Nearest::Edge(a, b) => to_line(a, b, q),
    }
}

/// The nearest feature is as near as the nearest of all.
fn assert_nearest(rt: &impl Abort, points: &[Point], polygon: Polygon<'_>, seen: &Seen) {
    match (polygon.nearest(seen.point), points.first()) {
        (Some(Nearest::Covered), Some(_)) => assert_of(rt, seen.covered, points),
        (Some(place), Some(first)) => {
            assert_of(rt, !seen.covered, points);
            let returned = returned_distance(place, seen.point);
            let least = slow_distance(points, *first, seen.point);
            assert_of(
                rt,
                !is_less(least, returned) && !is_less(returned, least),
                points,
            );
        }
        (place, first) => assert_of(rt, place.is_none() && first.is_none(), points),
    }
}

/// The width of the strip that begins at the line from `a` to `b`, squared, if all points lie left of that.
fn slow_strip(points: &[Point], a: Point, b: Point) -> Option<Fraction> {
    let mut farthest = b;
    for t in points {
        if orient(a, b, *t) < 0 {
            return None;
        }
        if orient(a, b, *t) > orient(a, b, farthest) {
            farthest = *t;
        }
    }
    Some(to_line(a, b, farthest))
}

/// The strip is as narrow as the narrowest of all that begin at the line of two points.
fn assert_thinnest(rt: &impl Abort, points: &[Point], strip: Strip) {
    let returned = to_line(strip.from, strip.to, strip.farthest);
    let mut found = false;
    for a in points {
        for b in points {
            if a != b {
                if let Some(width) = slow_strip(points, *a, *b) {
                    assert_of(rt, !is_less(width, returned), points);
                    found = found || !is_less(returned, width);
                }
            }
        }
    }
    assert_of(rt, found, points);
}

/// No direction of a small grid has a narrower strip.
fn assert_least(
    rt: &impl Abort,
    points: &[Point],
    polygon: Polygon<'_>,
    strip: Strip,
) -> Result<(), Fail> {
    let returned = to_line(strip.from, strip.to, strip.farthest);
    for dx in -3i64..4 {
        for dy in 0i64..4 {
            if dx != 0 || dy != 0 {
                let reach = polygon.width_along(Direction::new(dx, dy)?).unwrap_or(0);
                let above = i128::try_from(reach.wrapping_mul(reach)).unwrap_or(0);
                let below = dx.wrapping_mul(dx).wrapping_add(dy.wrapping_mul(dy)) as i128;
                assert_of(rt, !is_less(Fraction { above, below }, returned), points);
            }
        }
    }
    Ok(())
}

#[test]
fn nearest_and_least_width_of_all_sets_of_a_small_grid(rt: HostRuntime) -> Result<(), Fail> {
    for vertices in &polygons_of_grid(&rt, rt.alloc(), 2)? {
        let polygon = polygon_of(&rt, vertices);
        match polygon.least_width() {
            Some(strip) => {
                assert_thinnest(&rt, vertices, strip);
                assert_least(&rt, vertices, polygon, strip)?;
            }
            None => assert!(rt; vertices.len() < 2),
        }
        for seen in &seen_grid(rt.alloc(), vertices, 3, 1)? {
            assert_nearest(&rt, vertices, polygon, seen);
        }
    }
    Ok(())
}

/// The box is that of the least and the greatest coordinates.
fn assert_box(rt: &impl Abort, points: &[Point], polygon: Polygon<'_>) {
    match (polygon.bounding_box(), points.first()) {
        (Some((least, greatest)), Some(first)) => {
            let mut left = first.x();
            let mut right = first.x();
            let mut bottom = first.y();
            let mut top = first.y();
            for p in points {
                left = left.min(p.x());
                right = right.max(p.x());
                bottom = bottom.min(p.y());
                top = top.max(p.y());
            }
            assert_of(rt, (least.x(), least.y()) == (left, bottom), points);
            assert_of(rt, (greatest.x(), greatest.y()) == (right, top), points);
        }
        (found, first) => assert_of(rt, found.is_none() && first.is_none(), points),
    }
}

/// The distance of the two returned points is the greatest of any two.
fn assert_diameter(rt: &impl Abort, points: &[Point], polygon: Polygon<'_>) {
    match polygon.diameter() {
        Some((p, q)) => {
            assert_of(rt, points.contains(&p) && points.contains(&q), points);
            for a in points {
                for b in points {
                    assert_of(
                        rt,
                        distance_squared(*a, *b) <= distance_squared(p, q),
                        points,
                    );
                }
            }
        }
        None => assert!(rt; points.is_empty()),
    }
}

/// The width along a direction is the most that one point lies farther than another.
fn assert_width(rt: &impl Abort, points: &[Point], polygon: Polygon<'_>, d: Direction) {
    let mut widest = 0;
    for a in points {
        for b in points {
            widest = widest.max(product(d, *a).wrapping_sub(product(d, *b)));
        }
    }
    match polygon.width_along(d) {
        Some(width) => assert_of(rt, i128::try_from(width) == Ok(widest), points),
        None => assert!(rt; points.is_empty()),
    }
}

// The outermost points of the sets are at the limit of coordinates.
#[test]
fn extents_of_all_sets_of_a_small_grid(rt: HostRuntime) -> Result<(), Fail> {
    for bits in 0u32..512 {
        let points = grid_points(rt.alloc(), bits, 1099511627776)?;
        let vertices = vertices_of(&rt, rt.alloc(), &points)?;
        let polygon = polygon_of(&rt, &vertices);
        assert_box(&rt, &points, polygon);
        assert_diameter(&rt, &points, polygon);
        for (dx, dy) in [
            (1, 0),
            (0, -1),
            (3, 1),
            (-2, 3),
            (1099511627776, -1099511627776),
        ] {
            assert_width(&rt, &points, polygon, Direction::new(dx, dy)?);
        }
    }
    Ok(())
}

/// One of all sets of the small grid: its vertices, and which points of the grid it covers, by their bits.
#[derive(Drop)]
struct Known {
    vertices: Vec<Point>,
    covered: u32,
}

/// The bits of the points of the small grid that the points cover, by the definition.
fn covered_bits(points: &[Point], grid: &[Point]) -> u32 {
    let mut bits = 0u32;
    for q in grid {
        bits = bits << 1;
        if slow_covers(points, *q) {
            bits |= 1;
        }
    }
    bits
}

#[test]
fn all_sets_of_a_small_grid_within_each_other(rt: HostRuntime) -> Result<(), Fail> {
    let grid = grid_points(rt.alloc(), 511, 1)?;
    let mut all = Vec::new(rt.alloc());
    for vertices in polygons_of_grid(&rt, rt.alloc(), 1)? {
        let covered = covered_bits(&vertices, &grid);
        all.push(Known { vertices, covered })?;
    }
    for one in &all {
        let polygon = polygon_of(&rt, &one.vertices);
        for other in &all {
            let within = one.covered & other.covered == other.covered;
            assert_eq!(rt; polygon.contains(&polygon_of(&rt, &other.vertices)), within);
        }
    }
    Ok(())
}

/// Whether two sets intersect, by the definition: the points that each covers of a grid, and crossings of their segments.
pub(crate) fn slow_meet(one: &[Point], other: &[Point]) -> bool {
    for p in other {
        if slow_covers(one, *p) {
            return true;
        }
    }
    for p in one {
        if slow_covers(other, *p) {
            return true;
        }
    }
    for first in 0..other.len() {
        for b in &other[first..] {
            if slow_crosses(one, other[first], *b) {
                return true;
            }
        }
    }
    false
}

/// Returns the sets of at most this many points of the small grid, each translated by this vector.
pub(crate) fn small_sets(
    alloc: Global,
    most: u32,
    right: i64,
    up: i64,
) -> Result<Vec<Vec<Point>>, Fail> {
    let mut sets = Vec::new(alloc);
    for bits in 0u32..512 {
        if bits.count_ones() <= most {
            let mut set = Vec::new(alloc);
            for p in &grid_points(alloc, bits, 2)? {
                set.push(Point::new(p.x().wrapping_add(right), p.y().wrapping_add(up))?)?;
            }
            sets.push(set)?;
        }
    }
    Ok(sets)
}

/// The witness that two sets intersect is right: a point of both, or a crossing of two edges.
fn assert_meeting(rt: &impl Abort, one: &[Point], other: &[Point], meeting: Meeting) {
    match meeting {
        Meeting::OfOther(t) => {
            assert_of(rt, other.contains(&t) && slow_covers(one, t), one);
        }
        Meeting::OfThis(s) => {
            assert_of(rt, one.contains(&s) && slow_covers(other, s), one);
        }
        Meeting::Crossing(a, b, c, d) => {
            assert_of(rt, one.contains(&a) && one.contains(&b), one);
            assert_of(rt, other.contains(&c) && other.contains(&d), one);
            assert_of(rt, is_crossing(a, b, c, d), one);
        }
    }
}

/// The witness of the relation of two sets is right.
fn assert_shown(rt: &impl Abort, one: &[Point], other: &[Point], meet: bool, found: Witness) {
    match found {
        Witness::Disjoint(separation) => {
            assert_of(rt, !meet, one);
            assert_parts(rt, one, other, separation);
        }
        Witness::Intersects(meeting) => assert_meeting(rt, one, other, meeting),
    }
}

/// If there is no witness, one of them is empty.
fn assert_witness(
    rt: &impl Abort,
    one: &[Point],
    other: &[Point],
    meet: bool,
    found: Option<Witness>,
) {
    match found {
        None => assert!(rt; one.is_empty() || other.is_empty()),
        Some(witness) => assert_shown(rt, one, other, meet, witness),
    }
}

/// Each of the ones is answered with each of the others as by the definition, and the same the other way round.
fn assert_meetings(
    rt: &impl Abort,
    alloc: Global,
    ones: &[Vec<Point>],
    others: &[Vec<Point>],
) -> Result<(), Fail> {
    let all_others = all_vertices(rt, alloc, others)?;
    for one in ones {
        let one_vertices = vertices_of(rt, alloc, one)?;
        let polygon = polygon_of(rt, &one_vertices);
        for (other, other_vertices) in others.iter().zip(&all_others) {
            let against = polygon_of(rt, other_vertices);
            let meet = slow_meet(&one_vertices, other_vertices);
            assert_of(rt, polygon.intersects(&against) == meet, one);
            assert_of(rt, against.intersects(&polygon) == meet, one);
            assert_witness(rt, one, other, meet, polygon.witness(&against));
            assert_witness(rt, other, one, meet, against.witness(&polygon));
        }
    }
    Ok(())
}

#[test]
fn all_small_sets_beside_each_other(rt: HostRuntime) -> Result<(), Fail> {
    let ones = small_sets(rt.alloc(), 3, 0, 0)?;
    assert_meetings(&rt, rt.alloc(), &ones, &small_sets(rt.alloc(), 3, 1, 0)?)?;
    assert_meetings(&rt, rt.alloc(), &ones, &small_sets(rt.alloc(), 3, 1, 3)?)
}
