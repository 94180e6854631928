//! The exports, by what they are about. Each passes what it is given on to one plain function, one about a set with a
//! reference to the set at the pointer.
mod calls;
mod growing;
mod pairs;
mod polygons;
mod segments;
mod sets;
