//! The numbers of all codes, each reply in numbers, and the points and directions of numbers.
use hull_reply::{Code, HullReply, direction_of, encoded, point_of};
use hull_set::{Place, Reply};
use lattice::{COORDINATE_LIMIT, Point};
use std::process::Abort;
use std::test::Fail;

/// The reply has this code and these numbers.
fn assert_encoded(
    rt: &impl Abort,
    reply: HullReply,
    code: u32,
    ends: (i64, i64, i64, i64),
    number: u64,
) {
    assert_eq!(rt; reply.code, code);
    assert_eq!(rt; (reply.x, reply.y, reply.other_x, reply.other_y), ends);
    assert_eq!(rt; (reply.number, reply.high), (number, 0));
}

/// The codes of calls on a hull, by the numbers of the headers.
const CODES_OF_CALLS: [(Code, u32); 22] = [
    (Code::OutOfRange, 1),
    (Code::ZeroDirection, 2),
    (Code::Added, 3),
    (Code::Again, 4),
    (Code::TooMany, 5),
    (Code::NoMemory, 6),
    (Code::Removed, 7),
    (Code::Left, 8),
    (Code::Absent, 9),
    (Code::Point, 10),
    (Code::Empty, 11),
    (Code::Inside, 12),
    (Code::On, 13),
    (Code::Outside, 14),
    (Code::Tangents, 15),
    (Code::NoTangent, 16),
    (Code::Number, 17),
    (Code::Vertices, 18),
    (Code::TooSmall, 19),
    (Code::Cleared, 20),
    (Code::OutOfOrder, 21),
    (Code::UnknownKind, 22),
];

/// The codes of shared hulls and seats, by the numbers of the header.
const CODES_OF_SHARED_HULLS: [(Code, u32); 20] = [
    (Code::Open, 32),
    (Code::OutOfLimits, 33),
    (Code::WasOpened, 34),
    (Code::Acquired, 35),
    (Code::NoSeat, 36),
    (Code::StorageInUse, 37),
    (Code::NotOpen, 38),
    (Code::Released, 39),
    (Code::Vacant, 40),
    (Code::Waiting, 41),
    (Code::SlotInUse, 42),
    (Code::Taken, 43),
    (Code::NotYet, 44),
    (Code::NoNumber, 45),
    (Code::Full, 46),
    (Code::SeatsOut, 47),
    (Code::Closed, 48),
    (Code::NotClosed, 49),
    (Code::Text, 50),
    (Code::Ended, 51),
];

#[test]
fn numbers_of_the_codes(rt: HostRuntime) {
    for (code, number) in CODES_OF_CALLS {
        assert_eq!(rt; code.number(), number);
    }
    for (code, number) in CODES_OF_SHARED_HULLS {
        assert_eq!(rt; code.number(), number);
    }
}

#[test]
fn replies(rt: HostRuntime) -> Result<(), Fail> {
    let (p, q) = (Point::new(1, -2)?, Point::new(3, 4)?);
    assert_encoded(&rt, encoded(Reply::Added), 3, (0, 0, 0, 0), 0);
    assert_encoded(&rt, encoded(Reply::Again(2)), 4, (0, 0, 0, 0), 2);
    assert_encoded(&rt, encoded(Reply::Left(1)), 8, (0, 0, 0, 0), 1);
    assert_encoded(&rt, encoded(Reply::Farthest(p)), 10, (1, -2, 0, 0), 0);
    assert_encoded(&rt, encoded(Reply::Lies(Place::On)), 13, (0, 0, 0, 0), 0);
    assert_encoded(
        &rt,
        encoded(Reply::TangentPoints(p, q)),
        15,
        (1, -2, 3, 4),
        0,
    );
    assert_encoded(&rt, encoded(Reply::PointCount(9)), 17, (0, 0, 0, 0), 9);
    let area = encoded(Reply::DoubledArea(1 << 83));
    assert_eq!(rt; (area.code, area.number, area.high), (17, 0, 1 << 19));
    Ok(())
}

#[test]
fn points_of_numbers(rt: HostRuntime) -> Result<(), Fail> {
    let far = COORDINATE_LIMIT;
    let p = point_of(-far, far)?;
    assert_eq!(rt; (p.x(), p.y()), (-far, far));
    for (x, y) in [(far + 1, 0), (0, -far - 1), (i64::MIN, i64::MAX)] {
        assert_eq!(rt; point_of(x, y).err(), Some(Code::OutOfRange));
    }
    Ok(())
}

#[test]
fn directions_of_numbers(rt: HostRuntime) -> Result<(), Fail> {
    let far = COORDINATE_LIMIT;
    let d = direction_of(0, -far)?;
    assert_eq!(rt; (d.x(), d.y()), (0, -far));
    assert_eq!(rt; direction_of(0, 0).err(), Some(Code::ZeroDirection));
    assert_eq!(rt; direction_of(0, far + 1).err(), Some(Code::OutOfRange));
    Ok(())
}
