//! Halves of up to sixteen points for the tests, put together from smaller ones.
ghost use Rattle.std.specs.Prelude.{◌≡◌, ◌≤◌, ◌+◌, option_map, IfSome};
ghost use Rattle.lattice.specs.Plane as plane;
ghost use Rattle.lattice.specs.Plane.{IsWithin, widest_side};
ghost use Rattle.bridge_search.specs.Trees.{IsBridged, size_of, height_of, highest};
ghost use Rattle.bridge_search.specs.OneWay.{IsBridged-prop};
ghost use Rattle.hull_questions.specs.Shapes.{small_tree, joined_tree};

use bridge_search::{Half, lower_bridge, upper_bridge};
use lattice::{Point, before, orient};
use std::alloc::AllocError;

/// One point, or two.
#[derive(Clone, Copy)]
pub struct Small {
    left: Point,
    right: Option<Point>,
    ghost bridged: { IsBridged (small_tree left right) } by { IsBridged-prop (small_tree left right) },
}

impl Half for Small {
    ghost use Rattle.hull_questions.specs.Shapes.{small_low};

    ghost tree = { λ s. small_tree s.left s.right };

    ghost Fits = { λ p. Unit {0} };

    fn orient(a: Point, b: Point, c: Point) -> i128
        ensures value { result ≡ plane.orient a b c }
        ensures size { IsWithin widest_side result }
    {
        orient(a, b, c)
    }

    fn edge(self) -> Option<(Point, Point)> {
        match self.right {
            None => None,
            Some(right) => Some((self.left, right)),
        }
    }

    fn lower(self) -> Option<(Point, Point)> {
        match self.right {
            None => None,
            Some(right) => Some((self.left, right)),
        }
    }

    fn left(self) -> Self {
        Small {
            left: self.left,
            right: None,
        }
    }

    fn right(self) -> Self {
        match self.right {
            None => self,
            Some(right) => Small {
                left: right,
                right: None,
            },
        }
    }

    fn first(self) -> Point {
        self.left
    }

    fn last(self) -> Point {
        match self.right {
            None => self.left,
            Some(right) => right,
        }
    }

    fn height(self) -> u32 {
        match self.right {
            None => 0,
            Some(_) => 1,
        }
    }

    ghost bridged = { λ s. s.bridged };

    ghost low = { λ s. small_low s.left s.right };

    ghost fits = { λ s p i. tt };

    ghost turned_fits = { λ p i. tt };
}

/// A single half, or two with the bridges between them.
#[derive(Copy)]
pub struct Joined<A: Half> {
    left: A,
    right: Option<A>,
    upper: (Point, Point),
    lower: (Point, Point),
    ghost bridged: { IsBridged (joined_tree (A.tree left) (option_map A.tree right) upper lower) } by { IsBridged-prop
        (joined_tree (A.tree left) (option_map A.tree right) upper lower) },
    ghost low: { height_of (joined_tree (A.tree left) (option_map A.tree right) upper lower) ≤ highest },
}

impl<A: Half> Clone for Joined<A> {
    fn clone(&self) -> Result<Joined<A>, AllocError> {
        Ok(*self)
    }
}

/// Makes a single half.
fn alone<A: Half>(left: A) -> Joined<A>
    ensures { ⟦<Joined<A> as Half>⟧.tree result ≡ A.tree left }
{
    let p = left.first();
    Joined {
        left,
        right: None,
        upper: (p, p),
        lower: (p, p),
    }
}

/// Returns two halves with the bridges between them, or nothing if the left one does not end before the right one begins, or one has the greatest
/// height already.
fn join<A: Half>(left: A, right: A) -> Option<Joined<A>>
    ensures { IfSome result
        (λ h. size_of (⟦<Joined<A> as Half>⟧.tree h) ≡ size_of (A.tree left) + size_of (A.tree right)) }
{
    if !before(left.last(), right.first()) || left.height().max(right.height()) >= 2147483647 {
        return None;
    }
    Some(Joined {
        left,
        right: Some(right),
        upper: upper_bridge(left, right),
        lower: lower_bridge(left, right),
    })
}

impl<A: Half> Half for Joined<A> {
    ghost use Rattle.hull_questions.specs.Shapes.{joined_fits};

    ghost tree = { λ s. joined_tree (A.tree s.left) (option_map A.tree s.right) s.upper s.lower };

    ghost Fits = { A.Fits };

    fn orient(a: Point, b: Point, c: Point) -> i128 {
        A::orient(a, b, c)
    }

    fn edge(self) -> Option<(Point, Point)> {
        match self.right {
            None => self.left.edge(),
            Some(_) => Some(self.upper),
        }
    }

    fn lower(self) -> Option<(Point, Point)> {
        match self.right {
            None => self.left.lower(),
            Some(_) => Some(self.lower),
        }
    }

    fn left(self) -> Self {
        match self.right {
            None => alone(self.left.left()),
            Some(_) => alone(self.left),
        }
    }

    fn right(self) -> Self {
        match self.right {
            None => alone(self.left.right()),
            Some(right) => alone(right),
        }
    }

    fn first(self) -> Point {
        self.left.first()
    }

    fn last(self) -> Point {
        match self.right {
            None => self.left.last(),
            Some(right) => right.last(),
        }
    }

    fn height(self) -> u32 {
        match self.right {
            None => self.left.height(),
            Some(right) => self.left.height().max(right.height()) + 1,
        }
    }

    ghost bridged = { λ s. s.bridged };

    ghost low = { λ s. s.low };

    ghost fits = { λ s. joined_fits A.Fits A.tree A.fits s.left s.right s.upper s.lower };

    ghost turned_fits = { A.turned_fits };
}

/// Up to four points.
pub type Four = Joined<Small>;

/// Up to eight points.
pub type Eight = Joined<Four>;

/// Up to sixteen points.
pub type Sixteen = Joined<Eight>;

/// Returns small points, or nothing if the first is not before the second.
fn pair(left: Point, right: Point) -> Option<Small>
    ensures { IfSome result (λ h. size_of (⟦<Small as Half>⟧.tree h) ≤ 2) }
{
    if !before(left, right) {
        return None;
    }
    Some(Small {
        left,
        right: Some(right),
    })
}

fn two(points: &[Point]) -> Option<Small>
    ensures { IfSome result (λ h. size_of (⟦<Small as Half>⟧.tree h) ≤ 2) }
{
    match points {
        [point] => Some(Small {
            left: *point,
            right: None,
        }),
        [left, right] => pair(*left, *right),
        _ => None,
    }
}

fn four(points: &[Point]) -> Option<Four>
    ensures { IfSome result (λ h. size_of (⟦<Four as Half>⟧.tree h) ≤ 4) }
{
    if points.len() <= 2 {
        return Some(alone(two(points)?));
    }
    let (left, right) = points.split_at(points.len() / 2);
    join(two(left)?, two(right)?)
}

fn eight(points: &[Point]) -> Option<Eight>
    ensures { IfSome result (λ h. size_of (⟦<Eight as Half>⟧.tree h) ≤ 8) }
{
    if points.len() <= 4 {
        return Some(alone(four(points)?));
    }
    let (left, right) = points.split_at(points.len() / 2);
    join(four(left)?, four(right)?)
}

/// The half of one to sixteen points in order, or nothing.
pub fn sixteen(points: &[Point]) -> Option<Sixteen>
    ensures { IfSome result (λ h. size_of (⟦<Sixteen as Half>⟧.tree h) ≤ 16) }
{
    if points.len() <= 8 {
        return Some(alone(eight(points)?));
    }
    let (left, right) = points.split_at(points.len() / 2);
    join(eight(left)?, eight(right)?)
}
