//! The object that a caller passes from thread to thread: no program in C can ask the compiler about it.
use super::hull::Hull;

/// Requires a type whose values can be sent to another thread.
fn goes_to_any_thread<T: Send>() {}

/// The content of a set's storage can be sent to another thread.
pub fn hulls_go_to_any_thread() {
    goes_to_any_thread::<Hull>();
}
