//! Tests of polygons compared with the plain set, of points that are dropped before a polygon is made, of motions, of first meetings, and
//! of near pairs, over the public surface of these crates.
#![tactic(auto)]

#[cfg(test)]
mod answers;
#[cfg(test)]
mod casts;
#[cfg(test)]
mod distance_bounds;
#[cfg(test)]
mod distances;
#[cfg(test)]
mod dropped;
#[cfg(test)]
mod first_meetings;
#[cfg(test)]
mod lists;
#[cfg(test)]
mod meetings;
#[cfg(test)]
mod moved;
#[cfg(test)]
mod near_pairs;
#[cfg(test)]
mod stays;
