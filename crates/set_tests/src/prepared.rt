//! A prepared set and the set that it is made of under the same changes, asked often enough for the vertices to be known, and not.
use crate::numbers::Numbers;
use bucket_tree::BucketTree;
use hull_set::{HullSet, POINT_LIMIT};
use lattice::{Direction, Point};
use prepared_set::Prepared;
use std::alloc::Global;
use std::test::Fail;

/// Both sets.
#[derive(Drop)]
struct Sets {
    prepared: Prepared<BucketTree>,
    tree: BucketTree,
}

impl Sets {
    fn new(alloc: Global) -> Sets {
        Sets {
            prepared: Prepared::new(BucketTree::new(alloc, POINT_LIMIT)),
            tree: BucketTree::new(alloc, POINT_LIMIT),
        }
    }

    /// Makes a change on both, and returns whether they answer alike.
    fn change(&mut self, p: Point, adds: bool) -> bool {
        if adds {
            self.prepared.add(p) == self.tree.add(p)
        } else {
            self.prepared.remove(p) == self.tree.remove(p)
        }
    }

    /// Counts a question, and returns `known`, one higher if the vertices are known after that.
    fn prepared_again(&mut self, known: u32) -> u32 {
        self.prepared.prepare();
        if self.prepared.known_vertices().is_some() {
            known.saturating_add(1)
        } else {
            known
        }
    }

    /// Whether all questions are answered alike, and the vertices, if they are known, are those of the tree.
    fn are_alike(&self, q: Point, d: Direction) -> bool {
        let (prepared, tree) = (&self.prepared, &self.tree);
        let vertices = tree.vertices();
        let known = match (&vertices, prepared.known_vertices()) {
            (Ok(all), Some(known)) => all.as_slice() == known,
            (Ok(_), None) => true,
            _ => false,
        };
        known
            && prepared.vertices() == vertices
            && prepared.area2() == tree.area2()
            && prepared.count() == tree.count()
            && prepared.place(q) == tree.place(q)
            && prepared.tangents(q) == tree.tangents(q)
            && prepared.extreme(d) == tree.extreme(d)
    }
}

/// Returns a point of a square of that half width, the point with its coordinates exchanged, and a direction.
fn drawn(numbers: &mut Numbers, half: u16) -> Result<(Point, Point, Direction), Fail> {
    let (right, up) = (numbers.coordinate(half), numbers.coordinate(half));
    let p = Point::new(right, up)?;
    let q = Point::new(up, right)?;
    let (across, along) = (numbers.next() % 2, numbers.next() % 4);
    let d = Direction::new(1 - 2 * i64::from(across), 2 - i64::from(along))?;
    Ok((p, q, d))
}

/// Makes `changes` changes in a square of that half width, a question after each third. Returns after how many of these the vertices were known, if
/// all were answered alike.
fn known_among(alloc: Global, half: u16, changes: u32) -> Result<Option<u32>, Fail> {
    let mut sets = Sets::new(alloc);
    let mut numbers = Numbers::new();
    let mut known = 0;
    for step in 0..changes {
        let (p, q, d) = drawn(&mut numbers, half)?;
        let mut alike = sets.change(p, numbers.next() % 8 < 5);
        if step % 3 == 0 {
            known = sets.prepared_again(known);
            alike = sets.are_alike(q, d) && alike;
        }
        if !alike {
            return Ok(None);
        }
    }
    Ok(Some(known))
}

#[test]
fn few_points_are_answered_alike(rt: HostRuntime) -> Result<(), Fail> {
    let known = known_among(rt.alloc(), 3, 3000)?;
    assert!(rt; known > Some(100));
    Ok(())
}

#[test]
fn many_points_are_answered_alike(rt: HostRuntime) -> Result<(), Fail> {
    let known = known_among(rt.alloc(), 1000, 6000)?;
    assert!(rt; known > Some(100));
    Ok(())
}

/// Counts questions, at most 1000, until the vertices are known. Returns how many that took.
fn asked_until_known(prepared: &mut Prepared<BucketTree>) -> u32 {
    for asked in 0u32..1000 {
        if prepared.known_vertices().is_some() {
            return asked;
        }
        prepared.prepare();
    }
    1000
}

// 300 vertices are known from the first question on for which twice its number is at least their number.
#[test]
fn vertices_are_known_after_so_many_questions(rt: HostRuntime) -> Result<(), Fail> {
    let mut sets = Sets::new(rt.alloc());
    for k in 0i64..300 {
        let alike = sets.change(Point::new(k, k.wrapping_mul(k))?, true);
        assert!(rt; alike);
    }
    let asked = asked_until_known(&mut sets.prepared);
    assert_eq!(rt; asked, 256);
    let inside = sets.change(Point::new(10, 150)?, true);
    assert!(rt; inside && sets.prepared.known_vertices().is_some());
    let vertex = sets.change(Point::new(7, 49)?, false);
    let alike = sets.are_alike(Point::new(3, 20)?, Direction::new(1, -3)?);
    assert!(rt; vertex && alike && sets.prepared.known_vertices().is_some());
    let back = sets.change(Point::new(7, 49)?, true);
    let alike = sets.are_alike(Point::new(3, 20)?, Direction::new(1, -3)?);
    assert!(rt; back && alike && sets.prepared.known_vertices().is_some());
    let last = sets.change(Point::new(299, 89401)?, false);
    assert!(rt; last && sets.prepared.known_vertices().is_none());
    let alike = sets.are_alike(Point::new(3, 20)?, Direction::new(1, -3)?);
    assert!(rt; alike);
    Ok(())
}
