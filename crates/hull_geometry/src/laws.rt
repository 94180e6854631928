//! Laws of the definitions: each function has an empty body, and its contract is the law.
ghost use Rattle.hull_geometry.specs.Laws.{VertexListIsUnique, DoubledAreaIsUnique, WithPointAddsThePoint};
ghost use Rattle.hull_geometry.specs.Laws.{WithoutPointTakesThePoint};
ghost use Rattle.hull_geometry.specs.CandidateLists.{UnderAnEdgeIsInner, BridgeIsOfCandidateLists, ChainIsACandidateList};
ghost use Rattle.hull_geometry.specs.CandidateLists.{BridgeEndsAtWhatCame, CandidateListsAnswer};
ghost use Rattle.hull_geometry.specs.Runs.{RunsHaveTheirBridge};

use lattice::{PointSet, Side};

/// A list of points has at most one list of vertices.
pub fn vertex_list_is_unique()
    ensures { VertexListIsUnique }
{}

/// A list of points has at most one doubled area.
pub fn doubled_area_is_unique()
    ensures { DoubledAreaIsUnique }
{}

/// Adding a point to a list in the order "before" gives a list in that order whose members are that point and those of
/// the list. A successful `add` changes the set's points in this way.
pub fn with_point_adds_the_point()
    ensures { WithPointAddsThePoint }
{}

/// Removing a point from a list in the order "before" gives a list in that order whose members are those of the list
/// without that point. A successful `remove` changes the set's points in this way.
pub fn without_point_takes_the_point()
    ensures { WithoutPointTakesThePoint }
{}

/// A point under an edge of a hull is inner to each edge on that side to which the ends of the first edge are inner: it
/// does not matter to a bridge.
pub fn under_an_edge_is_inner(side: Side)
    ensures { UnderAnEdgeIsInner side }
{}

/// Two sets of points, all of the one before all of the other, have the bridge of their candidate lists, and only that:
/// a search needs to look only at the vertices.
pub fn bridge_is_of_candidate_lists<L: PointSet, M: PointSet, R: PointSet, S: PointSet>(side: Side)
    ensures { BridgeIsOfCandidateLists side L.has M.has R.has S.has }
{}

/// The chain of a set is a candidate list of it.
pub fn chain_is_a_candidate_list(side: Side)
    ensures { ChainIsACandidateList side }
{}

/// A list of points that is a candidate list of a set on both sides has the hull of the set: an answer about its hull
/// is an answer about the hull of the set.
pub fn candidate_lists_answer()
    ensures { CandidateListsAnswer }
{}

/// If a point that lies beyond the bridge of two sets is added to one of them, their new bridge ends at that point:
/// half a search finds it.
pub fn bridge_ends_at_what_came<L: PointSet, R: PointSet>(side: Side)
    ensures { BridgeEndsAtWhatCame side L.has R.has }
{}

/// Two slices of the vertices of a set have a bridge that follows from the chains of their vertices, without a search.
pub fn slices_have_their_bridge<L: PointSet, R: PointSet>(side: Side)
    ensures { RunsHaveTheirBridge side L.has R.has }
{}
