use std::alloc::{AllocError, Global};

/// The lines of a text, without the empty rest behind its last newline.
pub(crate) fn lines_of(heap: Global, text: &[u8]) -> Result<Vec<&[u8]>, AllocError> {
    let mut lines: Vec<&[u8]> = text.split(|byte| *byte == b'\n').collect(heap)?;
    let _rest = lines.pop();
    Ok(lines)
}

/// The words of a line.
pub(crate) fn words_of(heap: Global, line: &[u8]) -> Result<Vec<&[u8]>, AllocError> {
    line.split(|byte| *byte == b' ').collect(heap)
}

/// The place of the first word of a line's reply: the one behind its last `=`.
fn reply_place(words: &[&[u8]]) -> usize {
    let mut found = 0;
    for (at, word) in words.iter().enumerate() {
        if *word == b"=".as_slice() {
            found = at + 1;
        }
    }
    found
}

/// Whether the reply of a line begins with a word.
fn replies_with(words: &[&[u8]], first: &[u8]) -> bool {
    match words.get(reply_place(words)) {
        Some(word) => *word == first,
        None => false,
    }
}

/// Whether a fault or the disk ended the call of a line.
pub(crate) fn is_unserved(words: &[&[u8]]) -> bool {
    replies_with(words, b"EIO") || replies_with(words, b"FAILED")
}

/// Whether a word may be any: the number and the times of an inode, which no text tells before, and all of the reply of a
/// call that was not served.
fn is_open(words: &[&[u8]], at: usize) -> bool {
    let reply = reply_place(words);
    if at < reply {
        return false;
    }
    is_unserved(words) || replies_with(words, b"ino") && matches!(at - reply, 1 | 13 | 15 | 17)
}

/// Whether two lines are alike, but for the words that may be any.
pub(crate) fn are_alike(wanted: &[&[u8]], printed: &[&[u8]]) -> bool {
    if is_unserved(wanted) != is_unserved(printed) {
        return false;
    }
    if wanted.len() != printed.len() && !is_unserved(wanted) {
        return false;
    }
    for (at, word) in wanted.iter().enumerate() {
        if !is_open(wanted, at) && printed.get(at) != Some(word) {
            return false;
        }
    }
    true
}
