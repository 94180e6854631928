/// A hook that runs before a worker takes a number for a call and after it has handed the book on.
///
/// `worker` is the worker's number, and `index` counts its calls in this phase from 0.
pub trait Gate: Sync {
    /// Runs before the worker takes a number.
    fn before_call(&self, worker: u8, index: u32);

    /// Runs after it has handed the book on.
    fn after_call(&self, worker: u8, index: u32);
}

/// The gate that does nothing.
#[derive(Clone, Copy, Debug)]
pub struct NoGate;

impl Gate for NoGate {
    fn before_call(&self, _worker: u8, _index: u32) {}

    fn after_call(&self, _worker: u8, _index: u32) {}
}
