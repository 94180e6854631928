//! The lock of a shared hull, and its owners.
use crate::book::SharedHullBook;
use std::alloc::Global;
use std::mem::ManuallyDrop;
use std::sync::Arc;
use ticket_lock::{Guard, Seat, Ticket, TicketLock};

/// The lock round the book of a shared hull on the heap.
pub(crate) type SharedHullLock = TicketLock<Box<SharedHullBook>>;

/// A seat of that lock.
pub(crate) type SharedHullSeat = Seat<Box<SharedHullBook>>;

/// A seat of it with a number.
pub(crate) type SharedHullTicket = Ticket<Box<SharedHullBook>>;

/// A seat of it that holds the book.
pub(crate) type SharedHullGuard<'a> = Guard<'a, Box<SharedHullBook>>;

/// A lock that the shared hull and the acquired seats own together. A lock can't be dropped, only closed: an owner
/// that goes leaves it to the others, and the shared hull, which stays, is the last.
pub(crate) type SharedLock = Arc<ManuallyDrop<SharedHullLock>, Global>;
