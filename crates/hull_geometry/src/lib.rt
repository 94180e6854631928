//! Convex geometry over any list of lattice points: edges and chains of a hull, tangents, and lines that separate a
//! point from it.
//!
//! `specs/` has the definitions that other crates share, `proofs/` the lemmas from a chain of edges to the vertex list,
//! the doubled area, the location and the tangents of a point. Most functions are laws of these definitions. Only
//! [`location_by`] and [`Location::tangent_chains`] compute something: the location of a point relative to a hull, and the
//! chains that its tangents touch.
#![tactic(auto)]

mod hand;
mod laws;
mod location;

pub use hand::Hand;
pub use laws::{
    bridge_ends_at_what_came, bridge_is_of_candidate_lists, candidate_lists_answer,
    chain_is_a_candidate_list, doubled_area_is_unique, slices_have_their_bridge,
    under_an_edge_is_inner, vertex_list_is_unique, with_point_adds_the_point,
    without_point_takes_the_point,
};
pub use location::{Location, location_by};
