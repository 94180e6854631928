mod compacts;
mod journals;
mod long;
mod reports;
mod scripts;
mod upgrades;

// Returns the line of a text at which its reader is after this many calls that each returned a byte, or found the end: at the end it is the line
// after the last, whether or not a newline ends that one.
fn line_in_hand(text: &[u8], calls: u64) -> u32 {
    let mut line = 1u32;
    if calls > text.len() as u64 && !text.ends_with(b"\n") {
        line = 2;
    }
    for (i, b) in text.iter().enumerate() {
        if *b == b'\n' && (i as u64).saturating_add(1) < calls {
            line = line.saturating_add(1);
        }
    }
    line
}
