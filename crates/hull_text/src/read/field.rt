ghost use Rattle.std.specs.Prelude.{◌≡◌, ◌≤◌, ◌^◌, ◌∷◌, [], ℕ, List, Option, Some, None, MatchOption, IfErr, IfOk, Ok};
ghost use Rattle.std.specs.Prelude.{Err, IsOkAnd, MatchResult};
ghost use Rattle.lattice.specs.Plane.{IsCoordinate};
ghost use Rattle.hull_text.specs.Fault.{IsLineFault};
ghost use Rattle.hull_text.specs.Version.{coordinate_limit};
ghost use Rattle.hull_text.specs.Number.{negated, positive};
ghost use Rattle.hull_text.specs.Returned.{ReturnsNumber};
ghost use Rattle.hull_text.specs.Field.{Gives, fields_left, coordinate_in, coordinate_at, point_at, direction_at};
ghost use Rattle.hull_text.specs.Field.{number_in as number_within, number_at, seat_in, seat_at};

use super::next_number::next_number;
use super::number::Number;
use crate::fault::FaultKind;
use crate::version::Version;
use lattice::{Direction, Point};

/// The rest of a line; `None` at its end.
pub(crate) type Rest<'a> = Option<&'a [u8]>;

/// Returns the next field, and the rest after it.
#[inline(always)]
#[tactic(auto, using(crate::proofs::Cut::cut_at, crate::proofs::Cut::cut_none))]
pub(crate) fn next_field(rest: Rest<'_>) -> Option<(&[u8], Rest<'_>)>
    ensures { MatchOption result (fields_left rest.entry ≡ [])
        (λ x. fields_left rest.entry ≡ x.0.now ∷ fields_left x.1) }
{
    let text = rest?;
    for (i, b) in text.iter().enumerate() {
        if *b == b' ' {
            let (front, back) = text.split_at(i);
            let (_, after) = back.split_at(1);
            return Some((front, Some(after)));
        }
    }
    Some((text, None))
}

/// Returns the value made from what was read.
#[inline(always)]
pub(crate) fn read_as<A, B, F: FnOnce(A) -> B>(
    read: Result<(A, Rest<'_>), FaultKind>,
    make: F,
) -> Result<(B, Rest<'_>), FaultKind>
    requires { IfOk read (λ x. F.pre make x.0) }
    ensures { MatchResult read.entry (λ x. IsOkAnd result (λ y. F.post make x.0 y.0 × (y.1 ≡ x.1)))
        (λ fault. result ≡ Err fault) }
{
    match read {
        Ok((value, rest)) => Ok((make(value), rest)),
        Err(fault) => Err(fault),
    }
}

/// Returns a number after a minus, as a coordinate.
#[inline(always)]
fn negative(version: Version, number: Number<u64>) -> Result<i64, FaultKind>
    ensures value { (spelled : Option ℕ) → ReturnsNumber (2 ^ 64) number spelled
        → result ≡ coordinate_in (coordinate_limit version) (negated spelled) }
    ensures line { IfErr result IsLineFault }
    ensures small { IfOk result IsCoordinate }
{
    match number {
        Number::Unspelled | Number::Value(0) => Err(FaultKind::Number),
        Number::Value(n) if n <= version.coordinate_limit() => Ok(-(n as i64)),
        _ => Err(FaultKind::Coordinate),
    }
}

/// Returns a number without a sign, as a coordinate.
#[inline(always)]
fn plain(version: Version, number: Number<u64>) -> Result<i64, FaultKind>
    ensures value { (spelled : Option ℕ) → ReturnsNumber (2 ^ 64) number spelled
        → result ≡ coordinate_in (coordinate_limit version) (positive spelled) }
    ensures line { IfErr result IsLineFault }
    ensures small { IfOk result IsCoordinate }
{
    match number {
        Number::Unspelled => Err(FaultKind::Number),
        Number::Value(n) if n <= version.coordinate_limit() => Ok(n as i64),
        _ => Err(FaultKind::Coordinate),
    }
}

#[inline(always)]
#[tactic(auto, unfolding(crate::specs::Field::coordinate_at, crate::specs::Number::signed_of, crate::specs::Number::number_of), using(crate::proofs::Cut::cut_minus))]
fn coordinate_of(version: Version, rest: Rest<'_>) -> Result<(i64, Rest<'_>), FaultKind>
    ensures value { Gives (λ x. (x.0, fields_left x.1)) result (coordinate_at version (fields_left rest.entry)) }
    ensures small { IfOk result (λ x. IsCoordinate x.0) }
{
    if let Some([b'-', digits @ ..]) = rest {
        let Some((_, number, rest)) = next_number(Some(digits)) else {
            return Err(FaultKind::Form);
        };
        return Ok((negative(version, number)?, rest));
    }
    let Some((_, number, rest)) = next_number(rest) else {
        return Err(FaultKind::Form);
    };
    Ok((plain(version, number)?, rest))
}

/// Reads the point of the next two fields.
#[tactic(auto, unfolding(crate::specs::Field::point_at))]
pub(crate) fn point_of(version: Version, rest: Rest<'_>) -> Result<(Point, Rest<'_>), FaultKind>
    ensures { Gives (λ x. (x.0, fields_left x.1)) result (point_at version (fields_left rest.entry)) }
{
    let (x, rest) = coordinate_of(version, rest)?;
    let (y, rest) = coordinate_of(version, rest)?;
    let Ok(point) = Point::new(x, y) else {
        unreachable!()
    };
    Ok((point, rest))
}

/// Reads the direction of the next two fields.
#[tactic(auto, unfolding(crate::specs::Field::direction_at, crate::specs::Field::point_at))]
pub(crate) fn direction_of(
    version: Version,
    rest: Rest<'_>,
) -> Result<(Direction, Rest<'_>), FaultKind>
    ensures { Gives (λ x. (x.0, fields_left x.1)) result (direction_at version (fields_left rest.entry)) }
{
    let (x, rest) = coordinate_of(version, rest)?;
    let (y, rest) = coordinate_of(version, rest)?;
    if x == 0 && y == 0 {
        return Err(FaultKind::Coordinate);
    }
    let Ok(direction) = Direction::new(x, y) else {
        unreachable!()
    };
    Ok((direction, rest))
}

#[inline(always)]
fn number_up_to(limit: u64, number: Number<u64>) -> Result<u64, FaultKind>
    ensures value { (spelled : Option ℕ) → ReturnsNumber (2 ^ 64) number spelled → result ≡ number_within limit spelled }
    ensures line { IfErr result IsLineFault }
    ensures small { IfOk result (λ n. n ≤ limit) }
{
    match number {
        Number::Value(n) if n <= limit => Ok(n),
        _ => Err(FaultKind::Number),
    }
}

/// Reads the number up to a limit in the next field.
#[inline(always)]
#[tactic(auto, unfolding(crate::specs::Field::number_at))]
pub(crate) fn number_of_field(limit: u64, rest: Rest<'_>) -> Result<(u64, Rest<'_>), FaultKind>
    ensures value { Gives (λ x. (x.0, fields_left x.1)) result (number_at limit (fields_left rest.entry)) }
    ensures small { IfOk result (λ x. x.0 ≤ limit) }
{
    let Some((_, number, rest)) = next_number(rest) else {
        return Err(FaultKind::Form);
    };
    Ok((number_up_to(limit, number)?, rest))
}

#[inline(always)]
fn seat(number: Number<u64>) -> Result<u8, FaultKind>
    ensures value { (spelled : Option ℕ) → ReturnsNumber (2 ^ 64) number spelled → result ≡ seat_in spelled }
    ensures line { IfErr result IsLineFault }
    ensures low { IfOk result (λ n. n ≤ 63) }
{
    match number {
        Number::Unspelled => Err(FaultKind::Number),
        Number::Value(n) if n <= 63 => Ok(n as u8),
        _ => Err(FaultKind::Worker),
    }
}

/// Reads the worker or seat in the next field.
#[inline(always)]
#[tactic(auto, unfolding(crate::specs::Field::seat_at))]
pub(crate) fn seat_of(rest: Rest<'_>) -> Result<(u8, Rest<'_>), FaultKind>
    ensures value { Gives (λ x. (x.0, fields_left x.1)) result (seat_at (fields_left rest.entry)) }
    ensures low { IfOk result (λ x. x.0 ≤ 63) }
{
    let Some((_, number, rest)) = next_number(rest) else {
        return Err(FaultKind::Form);
    };
    Ok((seat(number)?, rest))
}
