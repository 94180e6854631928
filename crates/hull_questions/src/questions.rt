//! One file for each question.
pub(crate) mod area;
pub(crate) mod extreme;
pub(crate) mod few_vertices;
pub(crate) mod place;
pub(crate) mod tangents;
pub(crate) mod vertices;
