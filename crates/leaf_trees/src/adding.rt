//! Adding points one by one, all or none of them.
ghost use Rattle.std.specs.Prelude.{◌≡◌, ◌≤◌, ◌+◌, ◌∷◌, [], IfOk, IfErr, Err, length};
ghost use Rattle.lattice.specs.Plane.{Pair};
ghost use Rattle.hull_set.specs.Held.{once, multiplicity_among};
ghost use Rattle.leaf_trees.specs.Entries.{held_after_adds, AreTooMany, IsTrueHeld};

use super::fault::LoadFault;
use hull_set::{AddReply, HullSet};
use lattice::Point;

/// Adds a point, or returns why not.
fn add_one<S: HullSet>(set: &mut S, p: Point) -> Result<(), LoadFault>
    requires { IsTrueHeld (S.held set.old) }
    ensures multiplicities { IfOk result (λ _. (q : Pair) → (S.held set.new).multiplicities q ≡ (S.held set.old).multiplicities q + once p q) }
    ensures fault { IfErr result (λ _. S.held set.new ≡ S.held set.old) }
    ensures too_many { result ≡ Err LoadFault.TooMany → AreTooMany (S.held set.old) (p ∷ []) (S.bound set.old) }
    ensures kept { IsTrueHeld (S.held set.new) }
    ensures limit { S.bound set.new ≡ S.bound set.old }
    ensures sound { S.sound set.new }
{
    match set.add(p) {
        AddReply::Added => Ok(()),
        AddReply::Again(_) => Ok(()),
        AddReply::TooMany => Err(LoadFault::TooMany),
        AddReply::NoMemory => Err(LoadFault::NoMemory),
    }
}

/// Removes a point that is in the set.
fn remove_one<S: HullSet>(set: &mut S, p: Point)
    requires kept { IsTrueHeld (S.held set.old) }
    requires held { 1 ≤ (S.held set.old).multiplicities p }
    ensures multiplicities { (q : Pair) → (S.held set.new).multiplicities q + once p q ≡ (S.held set.old).multiplicities q }
    ensures kept { IsTrueHeld (S.held set.new) }
    ensures limit { S.bound set.new ≡ S.bound set.old }
    ensures sound { S.sound set.new }
{
    let _ = set.remove(p);
}

/// Removes points one by one. Each is in the set at least as often as it is among them.
fn remove_each<S: HullSet>(set: &mut S, points: &[Point])
    requires kept { IsTrueHeld (S.held set.old) }
    requires sound { S.sound set.old }
    requires held { (q : Pair) → multiplicity_among points.now q ≤ (S.held set.old).multiplicities q }
    ensures multiplicities { (q : Pair) → (S.held set.new).multiplicities q + multiplicity_among points.now q ≡ (S.held set.old).multiplicities q }
    ensures kept { IsTrueHeld (S.held set.new) }
    ensures limit { S.bound set.new ≡ S.bound set.old }
    ensures sound { S.sound set.new }
{
    for i in 0..points.len() {
        remove_one(set, points[i]);
    }
}

/// Adds points one by one; if one is refused, removes those before it again. Fails with `NoMemory` only if there are points.
pub fn add_each<S: HullSet>(set: &mut S, points: &[Point]) -> Result<(), LoadFault>
    requires kept { IsTrueHeld (S.held set.old) }
    requires sound { S.sound set.old }
    ensures held { IfOk result (λ _. S.held set.new ≡ held_after_adds (S.held set.old) points.now) }
    ensures fault { IfErr result (λ _. S.held set.new ≡ S.held set.old) }
    ensures too_many { result ≡ Err LoadFault.TooMany → AreTooMany (S.held set.old) points.now (S.bound set.old) }
    ensures refused { result ≡ Err LoadFault.NoMemory → 1 ≤ length points.now }
    ensures limit { S.bound set.new ≡ S.bound set.old }
    ensures sound { S.sound set.new }
{
    for i in 0..points.len() {
        if let Err(fault) = add_one(set, points[i]) {
            remove_each(set, points.split_at(i).0);
            return Err(fault);
        }
    }
    Ok(())
}
