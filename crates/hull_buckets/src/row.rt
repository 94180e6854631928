//! The first values of an array as a list: inserting one, removing one, copying some.
ghost use Rattle.std.specs.Prelude.{◌≡◌, ◌<◌, ◌≤◌, ◌+◌, ◌-◌, ◌++◌, length, take};
ghost use Rattle.std.specs.List.{insert, remove};

use super::BUCKET_SIZE;

/// Inserts a value at an index of the first `count`; those from there on move up by one.
pub(crate) fn put_in<T: Copy>(items: &mut [T], count: usize, place: usize, item: T)
    requires order { place ≤ count }
    requires space { count < length items.old }
    ensures items { take (count + 1) items.new ≡ insert (take count items.old) place item }
    ensures len { length items.new ≡ length items.old }
{
    items.copy_within(place..count, place + 1);
    items[place] = item;
}

/// Removes the value at an index of the first `count`; those after it move down by one.
pub(crate) fn drain<T: Copy>(items: &mut [T], count: usize, place: usize)
    requires order { place < count }
    requires within { count ≤ length items.old }
    ensures items { take (count - 1) items.new ≡ remove (take count items.old) place }
    ensures len { length items.new ≡ length items.old }
{
    items.copy_within(place + 1..count, place);
}

/// Appends values after the first `count`.
pub(crate) fn append<T: Copy>(items: &mut [T], count: usize, more: &[T])
    requires space { count + length more.now ≤ length items.old }
    ensures items { take (count + length more.now) items.new ≡ take count items.old ++ more.now }
    ensures len { length items.new ≡ length items.old }
{
    items[count..count + more.len()].copy_from_slice(more);
}
