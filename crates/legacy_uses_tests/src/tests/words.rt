//! The words of a line.
use std::alloc::Global;

/// Returns the words of a line, or `None` if allocation fails. An empty line has no words.
pub(crate) fn words_in(alloc: Global, line: &str) -> Option<Vec<&str>> {
    let mut words = Vec::new(alloc);
    if line.is_empty() {
        return Some(words);
    }
    for word in line.split(' ') {
        let Ok(()) = words.push(word) else {
            return None;
        };
    }
    Some(words)
}
