//! A shared hull: the lock round the book, and the seats that are not acquired.
ghost use Rattle.std.specs.Prelude.{◌≡◌, ◌≤◌};
ghost use Rattle.hull_snapshots.specs.declared.TheConstants.{READER_LIMIT};
ghost use Rattle.hull_shared.specs.Locks.{capacity_of, lock_of};
ghost use Rattle.hull_shared.specs.Places.{AreLaidOut};

use crate::gate::Gate;
use crate::lock::SharedLock;
use crate::place::SeatPlaces;
use hull_book::Journal;
use std::alloc::Global;

/// An open shared hull.
pub(crate) struct OpenSharedHull {
    pub(crate) alloc: Global,
    pub(crate) lock: SharedLock,
    pub(crate) seats: u8,
    pub(crate) capacity: u32,
    pub(crate) places: SeatPlaces,
    pub(crate) gate: Option<Gate>,
    ghost holds: { capacity ≡ capacity_of (lock_of lock) },
    ghost laid_out: { AreLaidOut (lock_of lock) seats places },
}

/// A shared hull that was not opened.
#[derive(Clone, Copy)]
pub(crate) struct FreshSharedHull {
    /// For how many readers it will be opened.
    pub(crate) readers: u8,
    ghost few: { readers ≤ READER_LIMIT },
}

impl FreshSharedHull {
    /// Makes a shared hull that will be opened for no reader.
    pub(crate) fn of_none() -> FreshSharedHull
        ensures { result.readers ≡ 0 }
    {
        FreshSharedHull { readers: 0 }
    }
}

/// A closed shared hull.
pub(crate) struct ClosedSharedHull {
    pub(crate) alloc: Global,
    pub(crate) segment: Journal,
}

/// The storage of a shared hull.
pub(crate) enum SharedHull {
    /// It was not opened, or ended, and contains nothing.
    Fresh(FreshSharedHull),
    /// It is open.
    Open(OpenSharedHull),
    /// It is closed, and has its journal.
    Closed(ClosedSharedHull),
}
