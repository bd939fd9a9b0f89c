//! Lines in a text.

use std::process::Abort;

/// Where a line stands in a text, if it does: the number of bytes before it.
pub fn place_of(text: &[u8], line: &str) -> Option<usize> {
    for k in 0..text.len() {
        if text[k..].starts_with(line.as_bytes()) {
            return Some(k);
        }
    }
    None
}

/// How often these words stand in a text.
fn count_of(text: &[u8], words: &str) -> usize {
    let mut count: usize = 0;
    for k in 0..text.len() {
        if text[k..].starts_with(words.as_bytes()) {
            count = count.saturating_add(1);
        }
    }
    count
}

/// If both threads of the last release found the object, one drop was the last one.
pub fn drops_once(rt: &impl Abort, text: &[u8]) {
    if count_of(text, "check #16 any any ok\n") == 3 {
        assert_eq!(rt; count_of(text, " #16 gone\n"), 1);
        assert_eq!(rt; count_of(text, " recycle #16\n"), 1);
    }
}
