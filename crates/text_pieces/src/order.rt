//! In which order changes stand.
use doc_text::{ContentChange, Extent};

// The line and the units in it where a change begins.
fn start_of(change: &ContentChange) -> (u32, u32) {
    match change.extent {
        Extent::Whole => (0, 0),
        Extent::Part(range) => (range.start.line, range.start.character),
    }
}

/// Whether no change begins before the one in front of it, or none behind. It tells only which way to make them is short.
pub fn go_one_way(changes: &[ContentChange]) -> bool {
    let Some(first) = changes.first() else {
        return true;
    };
    let mut before = start_of(first);
    let mut rise = true;
    let mut fall = true;
    for change in changes {
        let here = start_of(change);
        rise &= before <= here;
        fall &= here <= before;
        before = here;
    }
    rise || fall
}
