//! Where raw text ends.

use crate::tokens::is_space;

/// The states of a script.
#[derive(Clone, Copy, PartialEq, Eq)]
enum InScript {
    Plain,
    /// In a comment.
    Escaped,
    /// In a script in a comment.
    Doubly,
}

/// The length of raw text before the end tag of its element.
pub fn raw_length(text: &[u8], name: &[u8]) -> usize {
    for (index, byte) in text.iter().enumerate() {
        if *byte == b'<' && is_tag(text.get(index..).unwrap_or(b""), b"</", name) {
            return index;
        }
    }
    text.len()
}

/// The length of a script before its end tag.
pub(crate) fn script_length(text: &[u8]) -> usize {
    let mut state = InScript::Plain;
    for (index, byte) in text.iter().enumerate() {
        match *byte {
            b'<' => {
                let tag = text.get(index..).unwrap_or(b"");
                let is_end = is_tag(tag, b"</", b"script");
                if is_end && state != InScript::Doubly {
                    return index;
                }
                state = after_mark(state, is_end, tag);
            }
            b'>' if text.get(..index).unwrap_or(b"").ends_with(b"--") => state = InScript::Plain,
            _ => {}
        }
    }
    text.len()
}

/// The state after a `<` that doesn't end the script.
fn after_mark(state: InScript, is_end: bool, tag: &[u8]) -> InScript {
    match state {
        InScript::Plain if tag.starts_with(b"<!--") => InScript::Escaped,
        InScript::Escaped if is_tag(tag, b"<", b"script") => InScript::Doubly,
        InScript::Doubly if is_end => InScript::Escaped,
        _ => state,
    }
}

/// Whether a text begins with a tag of this name in any case.
fn is_tag(text: &[u8], start: &[u8], name: &[u8]) -> bool {
    let Some(after) = text.strip_prefix(start) else {
        return false;
    };
    let Some((found, rest)) = after.split_at_checked(name.len()) else {
        return false;
    };
    match rest.first() {
        Some(byte) => {
            (is_space(*byte) || matches!(*byte, b'/' | b'>')) && found.eq_ignore_ascii_case(name)
        }
        None => false,
    }
}
