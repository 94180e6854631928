//! The sleeping places of seats that wait for their turn. No promise depends on them.
use crossbeam_utils::sync::{EventCount, Key};
use std::array;

/// At most this many seats may have a core each.
const FEW: u8 = 4;

/// A seat is near its turn from this many numbers before its own. It is at most 8, the number of grant words.
pub(crate) const NEAR: u64 = 2;

/// A sleeping place for each number modulo 64: at most 64 numbers are out, so no two waiting seats share a place.
#[derive(Drop)]
pub struct Sleepers {
    places: [EventCount; 64],
    /// Whether the seats are few. Then a seat near its turn stays awake and spins for long, since a look costs less than a wake-up; more seats than
    /// cores would only wake each other to sleep again.
    few: bool,
}

impl Sleepers {
    pub(crate) fn new(seats: u8) -> Sleepers {
        Sleepers {
            places: array::from_fn(|_| EventCount::new()),
            few: seats <= FEW,
        }
    }

    /// Returns how often a seat looks near its turn before it sleeps.
    pub(crate) fn patience(&self) -> u32 {
        if self.few { 100 } else { 20 }
    }

    /// Announces that the seat with this number may sleep. Before it sleeps, it must look once more whether it is served.
    pub(crate) fn announce(&self, number: u64) -> Key<'_> {
        self.places[(number % 64) as usize].prepare_wait()
    }

    /// Wakes the seat with this number if it sleeps or is about to, and, if the seats are few, also the one that is near its turn from now on. Call
    /// it after the number was handed on.
    pub(crate) fn wake(&self, number: u64) {
        self.places[(number % 64) as usize].notify_one();
        if self.few {
            self.places[(number.wrapping_add(NEAR) % 64) as usize].notify_one();
        }
    }
}
