//! The bucket.
ghost use Rattle.std.specs.Prelude.{◌≡◌, false, ◌<◌, ◌≤◌, ◌+◌, ◌/◌, ◌++◌, ◌∷◌, [], ◌↔◌, IsTrue, Err, length, slice_set, take};
ghost use Rattle.std.specs.List.{All, Contains, insert, remove};
ghost use Rattle.lattice.specs.Bridges.{IsAllBefore};
ghost use Rattle.lattice.specs.Covers.{IsPointSet, with_point, without_point};
ghost use Rattle.lattice.specs.declared.side.Side.{Side};
ghost use Rattle.lattice.specs.declared.side.Side.TheVariants.{Lower, Upper};
ghost use Rattle.hull_geometry.specs.Positions.{IsPositionOf, point_at};
ghost use Rattle.hull_buckets.specs.Buckets.{IsBucket};
ghost use Rattle.hull_buckets.specs.declared.TheConstants.{BUCKET_SIZE};

use super::BUCKET_SIZE;
use super::mask::has;
use super::multiplicities::Multiplicities;
use super::positions::position_of;
use super::repairing::{all_vertices, vertices_before, vertices_from, with_vertex, without_vertex};
use super::row::{append, drain, put_in};
use lattice::{Point, Side};
use std::marker::Model;

/// One to 64 points in order, each with its multiplicity, and the indices of the vertices of their lower and of their upper chain.
#[derive(Drop)]
pub struct Bucket {
    points: [Point; BUCKET_SIZE],
    multiplicities: Multiplicities,
    len: u32,
    lower: u64,
    upper: u64,
}

impl Model for Bucket {
    ghost use Rattle.std.specs.Prelude.{◌≡◌, ◌≤◌, length, take};
    ghost use Rattle.hull_buckets.specs.Buckets.{BucketValue, IsBucket, seen};
    ghost use Rattle.hull_buckets.specs.declared.TheConstants.{BUCKET_SIZE};

    ghost Value = { BucketValue };

    ghost view = { λ b. seen b.len b.points b.multiplicities b.lower b.upper };

    ghost invariant = { λ b. (b.len ≤ BUCKET_SIZE) × IsBucket (seen b.len b.points b.multiplicities b.lower b.upper)
        × (length b.multiplicities ≡ BUCKET_SIZE) };
}

impl Bucket {
    ghost use Rattle.hull_buckets.specs.Buckets.{IsMultiplicity, IsMaskOf, IsCovered, mask_on};

    /// Makes a bucket of one point.
    pub fn new(point: Point, multiplicity: u16) -> Bucket
        requires { IsMultiplicity multiplicity }
        ensures points { result.points ≡ point ∷ [] }
        ensures multiplicities { result.multiplicities ≡ multiplicity ∷ [] }
    {
        Bucket {
            points: [point; BUCKET_SIZE],
            multiplicities: Multiplicities::new(&[multiplicity]),
            len: 1,
            lower: 1,
            upper: 1,
        }
    }

    /// Returns the points, in order.
    pub fn points(&self) -> &[Point]
        ensures points { result.now ≡ self.now.points }
        ensures some { 0 < length result.now }
        ensures few { length result.now ≤ BUCKET_SIZE }
        ensures ordered { IsPointSet result.now }
    {
        &self.points[..self.len as usize]
    }

    /// Returns the multiplicity of each point, in the order of the points.
    pub fn multiplicities(&self) -> &[u16]
        ensures multiplicities { result.now ≡ self.now.multiplicities }
        ensures counted { length result.now ≡ length self.now.points }
        ensures held { All IsMultiplicity result.now }
    {
        self.multiplicities.first(self.len as usize)
    }

    /// Whether the bucket has no capacity left.
    pub fn is_full(&self) -> bool
        ensures { IsTrue result ↔ (length self.now.points ≡ BUCKET_SIZE) }
    {
        self.points().len() == BUCKET_SIZE
    }

    /// Returns the index of a point, or else the index at which it would be inserted.
    pub fn place_of(&self, p: Point) -> Result<usize, usize>
        ensures { IsPositionOf self.now.points p result }
    {
        position_of(&self.points[..self.len as usize], p)
    }

    /// Returns the indices of the vertices of the chain on a side, as the bits of a word.
    pub fn vertices(&self, side: Side) -> u64
        ensures mask { result ≡ mask_on side self.now }
        ensures vertices { IsMaskOf side self.now.points result }
    {
        match side {
            Side::Lower => self.lower,
            Side::Upper => self.upper,
        }
    }

    /// Whether the point at an index is a vertex on a side: if not, it is inwards of a segment between two others.
    pub fn is_vertex(&self, side: Side, place: usize) -> bool
        requires { place < length self.now.points }
        ensures { result ≡ false → IsCovered side (point_at self.now.points place) self.now.points }
    {
        buckets_are_sound(self);
        has(self.vertices(side), place)
    }

    /// Sets the multiplicity of the point at an index.
    pub fn set_multiplicity(&mut self, place: usize, multiplicity: u16)
        requires within { place < length self.old.points }
        requires held { IsMultiplicity multiplicity }
        ensures multiplicities { self.new.multiplicities ≡ slice_set self.old.multiplicities place multiplicity }
        ensures points { self.new.points ≡ self.old.points }
        ensures vertices { (side : Side) → mask_on side self.new ≡ mask_on side self.old }
    {
        self.multiplicities
            .set(self.len as usize, place, multiplicity);
    }

    /// Inserts a point at its index.
    pub fn insert(&mut self, place: usize, point: Point, multiplicity: u16)
        requires position { IsPositionOf self.old.points point (Err place) }
        requires space { length self.old.points < BUCKET_SIZE }
        requires held { IsMultiplicity multiplicity }
        ensures points { self.new.points ≡ with_point point self.old.points }
        ensures multiplicities { self.new.multiplicities ≡ insert self.old.multiplicities place multiplicity }
    {
        put_in(&mut self.points, self.len as usize, place, point);
        self.multiplicities
            .insert(self.len as usize, place, multiplicity);
        self.len += 1;
        let points = &self.points[..self.len as usize];
        self.lower = with_vertex(Side::Lower, points, self.lower, place);
        self.upper = with_vertex(Side::Upper, points, self.upper, place);
    }

    /// Removes the point at an index; it must not be the only one.
    pub fn remove(&mut self, place: usize)
        requires within { place < length self.old.points }
        requires others { 1 < length self.old.points }
        ensures points { self.new.points ≡ without_point (point_at self.old.points place) self.old.points }
        ensures multiplicities { self.new.multiplicities ≡ remove self.old.multiplicities place }
    {
        drain(&mut self.points, self.len as usize, place);
        self.multiplicities.remove(self.len as usize, place);
        self.len -= 1;
        let points = &self.points[..self.len as usize];
        self.lower = without_vertex(Side::Lower, points, self.lower, place);
        self.upper = without_vertex(Side::Upper, points, self.upper, place);
    }

    /// Makes a bucket of points in order, each with its multiplicity.
    pub fn from_parts(points: &[Point], multiplicities: &[u16]) -> Bucket
        requires some { 0 < length points.now }
        requires few { length points.now ≤ BUCKET_SIZE }
        requires ordered { IsPointSet points.now }
        requires counted { length multiplicities.now ≡ length points.now }
        requires held { All IsMultiplicity multiplicities.now }
        ensures points { result.points ≡ points.now }
        ensures multiplicities { result.multiplicities ≡ multiplicities.now }
    {
        Bucket::with_vertices(
            points,
            multiplicities,
            all_vertices(Side::Lower, points),
            all_vertices(Side::Upper, points),
        )
    }

    /// Makes a bucket of points in order, each with its multiplicity, whose vertices are known.
    fn with_vertices(points: &[Point], multiplicities: &[u16], lower: u64, upper: u64) -> Bucket
        requires some { 0 < length points.now }
        requires few { length points.now ≤ BUCKET_SIZE }
        requires ordered { IsPointSet points.now }
        requires counted { length multiplicities.now ≡ length points.now }
        requires held { All IsMultiplicity multiplicities.now }
        requires below { IsMaskOf Lower points.now lower }
        requires above { IsMaskOf Upper points.now upper }
        ensures points { result.points ≡ points.now }
        ensures multiplicities { result.multiplicities ≡ multiplicities.now }
    {
        let mut own_points = [points[0]; BUCKET_SIZE];
        append(&mut own_points, 0, points);
        Bucket {
            points: own_points,
            multiplicities: Multiplicities::new(multiplicities),
            len: points.len() as u32,
            lower,
            upper,
        }
    }

    /// Keeps the first `len` points, and drops the others.
    fn truncate(&mut self, len: usize)
        requires some { 0 < len }
        requires within { len < length self.old.points }
        ensures points { self.new.points ≡ take len self.old.points }
        ensures multiplicities { self.new.multiplicities ≡ take len self.old.multiplicities }
    {
        let points = &self.points[..self.len as usize];
        self.lower = vertices_before(Side::Lower, points, self.lower, len);
        self.upper = vertices_before(Side::Upper, points, self.upper, len);
        self.len = len as u32;
    }

    /// Splits the bucket in the middle: the points of its second half move to the bucket that is returned.
    pub fn split(&mut self) -> Bucket
        requires { 1 < length self.old.points }
        ensures points { self.old.points ≡ self.new.points ++ result.points }
        ensures multiplicities { self.old.multiplicities ≡ self.new.multiplicities ++ result.multiplicities }
        ensures middle { length self.new.points ≡ length self.old.points / 2 }
    {
        let (points, multiplicities) = (self.points(), self.multiplicities());
        let middle = points.len() / 2;
        let second = Bucket::with_vertices(
            &points[middle..],
            &multiplicities[middle..],
            vertices_from(Side::Lower, points, self.lower, middle),
            vertices_from(Side::Upper, points, self.upper, middle),
        );
        self.truncate(middle);
        second
    }

    /// Appends the points of a bucket that is after this one.
    pub fn merge(&mut self, other: &Bucket)
        requires order { IsAllBefore (Contains self.old.points) (Contains other.now.points) }
        requires space { length self.old.points + length other.now.points ≤ BUCKET_SIZE }
        ensures points { self.new.points ≡ self.old.points ++ other.now.points }
        ensures multiplicities { self.new.multiplicities ≡ self.old.multiplicities ++ other.now.multiplicities }
    {
        let (more, more_multiplicities) = (other.points(), other.multiplicities());
        append(&mut self.points, self.len as usize, more);
        self.multiplicities
            .append(self.len as usize, more_multiplicities);
        self.len += more.len() as u32;
        let points = &self.points[..self.len as usize];
        self.lower = all_vertices(Side::Lower, points);
        self.upper = all_vertices(Side::Upper, points);
    }
}

/// The law of buckets: each is well formed.
pub fn buckets_are_sound(bucket: &Bucket)
    ensures { IsBucket bucket.now }
{
    let _ = &bucket.points;
}
