//! Points that are translated and rotated.
use lattice::{COORDINATE_LIMIT, Direction, Point};
use motions::Motion;
use std::test::Fail;

#[test]
fn moves_a_point(rt: HostRuntime) -> Result<(), Fail> {
    let p = Point::new(3, -1)?;
    let far = Point::new(COORDINATE_LIMIT, 0)?;
    let on = Motion::Translation { dx: 2, dy: 5 };
    assert!(rt; on.apply(p) == Some(Point::new(5, 4)?));
    assert!(rt; on.apply(far).is_none());
    let quarter = Motion::Rotation(Direction::new(0, 1)?);
    assert!(rt; quarter.apply(p) == Some(Point::new(1, 3)?));
    let scaled = Motion::Rotation(Direction::new(3, 4)?);
    assert!(rt; scaled.apply(p) == Some(Point::new(13, 9)?));
    assert!(rt; scaled.apply(far).is_none());
    assert!(rt; quarter.keeps_in_range(&[p, far]) && !on.keeps_in_range(&[p, far]));
    assert_eq!(rt; quarter.first_of(&[p, far, Point::new(0, 7)?]), 2);
    Ok(())
}
