//! The exports, by what they are about. Each passes references to what its pointers point to on to one plain function
//! of this crate.
mod closing;
mod files;
mod opening;
mod readers;
mod seats;
mod segments;
mod storages;
