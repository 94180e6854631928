use super::journals::EXAMPLE;
use crate::devices::{Got, device, got, is_cut, is_whole};
use hull_text::{Counted, TextFault, UpgradeFault, WriteFault, upgrade};
use std::alloc::Global;
use text_io::testing::{Pieces, Spout};

/// The number of the version in the header of the example.
const VERSION_PLACE: usize = 17;

// The example with another version in its header.
fn in_version(alloc: Global, version: u8) -> Option<Vec<u8>> {
    let mut text = EXAMPLE.to_vec(alloc).ok()?;
    if let Some(place) = text.get_mut(VERSION_PLACE) {
        *place = version;
    }
    Some(text)
}

// The result of an upgrade, and what the device received of the expected text.
type Upgraded = (Result<(), UpgradeFault>, Got);

fn upgraded_to(alloc: Global, source: Pieces<'_>, device: Spout, want: &[u8]) -> Upgraded {
    let mut source = Counted::new(source);
    let mut out = Counted::new(device);
    let outcome = upgrade(alloc, &mut source, &mut out);
    (outcome, got(&out, want))
}

// The same in pieces of this size on both sides.
fn upgraded(alloc: Global, text: &[u8], size: usize, want: &[u8]) -> Option<Upgraded> {
    let out = device(alloc, 256, size, 0, false)?;
    Some(upgraded_to(alloc, Pieces::new(text, size), out, want))
}

// Whether a text comes out as another one.
fn comes_out_as(alloc: Global, text: &[u8], size: usize, want: &[u8]) -> bool {
    match upgraded(alloc, text, size, want) {
        Some((outcome, got)) => outcome == Ok(()) && is_whole(got, want),
        None => false,
    }
}

// Whether the example in a version comes out in another one, in pieces of each size.
fn is_renewed(alloc: Global, version: u8, newest: u8) -> Option<bool> {
    let text = in_version(alloc, version)?;
    let want = in_version(alloc, newest)?;
    let mut all = true;
    for size in [1, 3, 4096] {
        all = comes_out_as(alloc, &text, size, &want) && all;
    }
    Some(all)
}

#[test]
fn the_example_comes_out_in_the_newest_version_of_its_rules(rt: HostRuntime) {
    let first = is_renewed(rt.alloc(), b'1', b'2');
    let second = is_renewed(rt.alloc(), b'2', b'2');
    let third = is_renewed(rt.alloc(), b'3', b'3');
    assert!(rt; [first, second, third] == [Some(true); 3]);
}

#[test]
fn the_greatest_multiplicity_comes_out_as_it_was(rt: HostRuntime) {
    let text =
        b"hullbook journal 3 first 0 limit 1 capacity 4\n0 0 add 5 5 = again 65535\n1 0 remove 5 5 = left 65535\nend 2\n";
    let is_same = comes_out_as(rt.alloc(), text, 3, text);
    assert!(rt; is_same);
}

// Whether an upgrade ends with this fault of the text, and nothing was written.
fn is_at_fault(upgraded: Option<Upgraded>, number: u8, line: u32) -> bool {
    let fault = UpgradeFault::Text(TextFault { number, line });
    match upgraded {
        Some((outcome, (_, length, calls, _))) => outcome == Err(fault)
            && (length, calls) == (0, 0),
        None => false,
    }
}

#[test]
fn a_coordinate_has_the_range_of_its_version(rt: HostRuntime) {
    let old = b"hullbook journal 1 first 0 limit 4 capacity 4\n0 0 add 1048577 0 = added\nend 1\n";
    let new = b"hullbook journal 2 first 0 limit 4 capacity 4\n0 0 add 1048577 0 = added\nend 1\n";
    let is_beyond = is_at_fault(upgraded(rt.alloc(), old, 4096, new), 3, 2);
    let is_within = comes_out_as(rt.alloc(), new, 4096, new);
    assert!(rt; is_beyond && is_within);
}

// Returns the result of an upgrade of the example in an unknown version.
fn unknown_upgraded(alloc: Global) -> Option<Upgraded> {
    let unknown = in_version(alloc, b'4')?;
    upgraded(alloc, &unknown, 3, EXAMPLE)
}

// Returns the result of an upgrade of the example whose last read fails.
fn upgraded_to_the_last_read(alloc: Global) -> Option<Upgraded> {
    let out = device(alloc, 256, 1, 0, false)?;
    let source = Pieces::new(EXAMPLE, 1).failing_at(209);
    Some(upgraded_to(alloc, source, out, EXAMPLE))
}

#[test]
fn a_fault_of_the_text_leaves_nothing_written(rt: HostRuntime) {
    let is_unknown = is_at_fault(unknown_upgraded(rt.alloc()), 7, 1);
    // the end line is the last that can be at fault
    let (front, _) = EXAMPLE.split_at(EXAMPLE.len() - 1);
    let is_cut_off = is_at_fault(upgraded(rt.alloc(), front, 3, EXAMPLE), 6, 9);
    let is_unread = is_at_fault(upgraded_to_the_last_read(rt.alloc()), 8, 9);
    assert!(rt; is_unknown && is_cut_off && is_unread);
}

// Whether an upgrade is cut short at this call of a device that takes a byte at a call.
fn is_cut_at(alloc: Global, old: &[u8], want: &[u8], call: u64) -> Option<bool> {
    let out = device(alloc, 256, 1, call, false)?;
    let (outcome, got) = upgraded_to(alloc, Pieces::new(old, 4096), out, want);
    Some(outcome == Err(UpgradeFault::Write(WriteFault)) && is_cut(got, call))
}

// Whether it is so at each call.
fn is_cut_at_each(alloc: Global, old: &[u8], want: &[u8]) -> bool {
    let mut all = true;
    for call in 1..=EXAMPLE.len() as u64 {
        all = is_cut_at(alloc, old, want, call) == Some(true) && all;
    }
    all
}

// The same of the example in the first version.
fn first_is_cut_at_each(alloc: Global) -> Option<bool> {
    let old = in_version(alloc, b'1')?;
    let want = in_version(alloc, b'2')?;
    Some(is_cut_at_each(alloc, &old, &want))
}

#[test]
fn each_failing_write_of_an_upgrade_leaves_a_beginning(rt: HostRuntime) {
    let all = first_is_cut_at_each(rt.alloc());
    assert!(rt; all == Some(true));
}
