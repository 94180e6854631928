//! A square and a diamond beside it, one of which moves towards the other.
use super::meetings::polygon_of;
use first_meeting::{Arrival, FirstMeeting, first_meeting};
use hull_polygon::{Entry, Hit};
use lattice::Point;
use std::process::Abort;
use std::test::Fail;

/// The arrival of a vertex at an edge.
fn at_edge(
    vertex: Point,
    moves: bool,
    edge: (Point, Point),
    numerator: u128,
    denominator: u128,
) -> Option<FirstMeeting> {
    let place = Entry::Edge(edge.0, edge.1);
    let hit = Hit {
        place,
        numerator,
        denominator,
    };
    Some(FirstMeeting::Later(Arrival { vertex, moves, hit }))
}

#[test]
fn a_diamond_moves_to_a_square(rt: HostRuntime) -> Result<(), Fail> {
    let vertices = [
        Point::new(0, 0)?,
        Point::new(4, 0)?,
        Point::new(4, 4)?,
        Point::new(0, 4)?,
    ];
    let others = [
        Point::new(8, 2)?,
        Point::new(9, 1)?,
        Point::new(10, 2)?,
        Point::new(9, 3)?,
    ];
    let square = polygon_of(&rt, &vertices);
    let diamond = polygon_of(&rt, &others);
    let side = (vertices[1], vertices[2]);
    let (west, east) = (Point::new(-8, 0)?, Point::new(8, 0)?);
    assert!(rt; first_meeting(&diamond, &square, west) == at_edge(others[0], true, side, 16, 32));
    assert!(rt; first_meeting(&square, &diamond, east) == at_edge(others[0], false, side, 16, 32));
    assert!(rt;
        first_meeting(&diamond, &square, Point::new(-4, 0)?)
            == at_edge(others[0], true, side, 16, 16)
    );
    assert!(rt; first_meeting(&diamond, &square, Point::new(-3, 0)?).is_none());
    assert!(rt; first_meeting(&diamond, &square, Point::new(0, 0)?).is_none());
    assert!(rt; first_meeting(&square, &square, west) == Some(FirstMeeting::AtStart));
    Ok(())
}

#[test]
fn a_diamond_stays_apart_from_a_square(rt: HostRuntime) -> Result<(), Fail> {
    let vertices = [
        Point::new(0, 0)?,
        Point::new(4, 0)?,
        Point::new(4, 4)?,
        Point::new(0, 4)?,
    ];
    let others = [
        Point::new(8, 2)?,
        Point::new(9, 1)?,
        Point::new(10, 2)?,
        Point::new(9, 3)?,
    ];
    let square = polygon_of(&rt, &vertices);
    let diamond = polygon_of(&rt, &others);
    assert!(rt; diamond.is_found_apart_during(&square, Point::new(-3, 0)?));
    assert!(rt; diamond.is_found_apart_during(&square, Point::new(900, -7)?));
    assert!(rt; diamond.is_found_apart_during(&square, Point::new(-20, 40)?));
    assert!(rt; square.is_found_apart_during(&diamond, Point::new(3, 0)?));
    assert!(rt; !diamond.is_found_apart_during(&square, Point::new(-4, 0)?));
    assert!(rt; !square.is_found_apart_during(&diamond, Point::new(20, 1)?));
    assert!(rt; !square.is_found_apart_during(&square, Point::new(900, 0)?));
    Ok(())
}
