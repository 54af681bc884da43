//! Splits HTML into tokens, as the HTML Standard's tokenizer does.

use memchr::memchr;

/// A token.
#[derive(Clone, Copy)]
pub enum Token<'a> {
    /// A text, with its references as they are written.
    Text(&'a str),
    /// A start tag.
    Start(StartTag<'a>),
    /// An end tag, by its name.
    End(&'a str),
    /// A comment, a declaration, or a tag that isn't closed.
    Nothing,
}

/// A start tag.
#[derive(Clone, Copy)]
pub struct StartTag<'a> {
    pub name: &'a str,
    /// Its attributes, as they are written.
    pub attributes: &'a str,
    /// Whether it ends in `/>`.
    pub closes_itself: bool,
}

/// The states in which a byte of a tag is read.
#[derive(Clone, Copy, PartialEq, Eq)]
enum InTag {
    BeforeName,
    Name,
    AfterName,
    BeforeValue,
    InDouble,
    InSingle,
    Unquoted,
}

/// The states in which a byte of a comment is read.
#[derive(Clone, Copy, PartialEq, Eq)]
enum InComment {
    Start,
    StartDash,
    Text,
    Dash,
    Dashes,
    Bang,
}

/// The first token, and the text after it.
pub fn split_token(text: &str) -> Option<(Token<'_>, &str)> {
    match text.as_bytes() {
        [] => None,
        [b'<', b'/', first, ..] if first.is_ascii_alphabetic() => split_tag(text, 2),
        [b'<', first, ..] if first.is_ascii_alphabetic() => split_tag(text, 1),
        [b'<', b'/', _, ..] | [b'<', b'!' | b'?', ..] => {
            let length = declaration_length(text.as_bytes());
            Some((Token::Nothing, text.get(length..).unwrap_or("")))
        }
        bytes => {
            let others = bytes.get(1..)?;
            let length = memchr(b'<', others).unwrap_or(others.len());
            let (text, rest) = text.split_at_checked(length.saturating_add(1))?;
            Some((Token::Text(text), rest))
        }
    }
}

/// The tag at the beginning of a text, whose name begins at an index, and the text after it.
fn split_tag(text: &str, start: usize) -> Option<(Token<'_>, &str)> {
    let inner = text.get(start..)?;
    let length = inner
        .as_bytes()
        .iter()
        .take_while(|byte| !ends_name(**byte))
        .count();
    let (name, after) = inner.split_at_checked(length)?;
    let Some((length, closes_itself)) = attributes_length(after.as_bytes()) else {
        return Some((Token::Nothing, ""));
    };
    let (attributes, rest) = after.split_at_checked(length)?;
    let rest = rest.get(1..)?;
    if start == 2 {
        return Some((Token::End(name), rest));
    }
    let tag = StartTag {
        name,
        attributes,
        closes_itself,
    };
    Some((Token::Start(tag), rest))
}

/// Whether a byte ends the name of a tag.
fn ends_name(byte: u8) -> bool {
    is_space(byte) || matches!(byte, b'/' | b'>')
}

/// Whether a byte is white space in HTML.
#[inline(always)]
pub(crate) fn is_space(byte: u8) -> bool {
    matches!(byte, b' ' | b'\t' | b'\n' | 12 | b'\r')
}

/// The length of a tag's attributes before its `>`, and whether the tag ends in `/>`; `None` if the
/// tag isn't closed.
fn attributes_length(text: &[u8]) -> Option<(usize, bool)> {
    let mut state = InTag::BeforeName;
    let mut before = b' ';
    for (index, byte) in text.iter().enumerate() {
        match after_tag_byte(state, *byte) {
            Some(next) => state = next,
            None => return Some((index, state == InTag::BeforeName && before == b'/')),
        }
        before = *byte;
    }
    None
}

/// The state after a byte of a tag; `None` if it ends the tag.
fn after_tag_byte(state: InTag, byte: u8) -> Option<InTag> {
    match state {
        InTag::BeforeName => match byte {
            b'>' => None,
            b'/' => Some(InTag::BeforeName),
            _ if is_space(byte) => Some(InTag::BeforeName),
            _ => Some(InTag::Name),
        },
        InTag::Name | InTag::AfterName => match byte {
            b'>' => None,
            b'/' => Some(InTag::BeforeName),
            b'=' => Some(InTag::BeforeValue),
            _ if is_space(byte) => Some(InTag::AfterName),
            _ => Some(InTag::Name),
        },
        InTag::BeforeValue => match byte {
            b'>' => None,
            b'"' => Some(InTag::InDouble),
            b'\'' => Some(InTag::InSingle),
            _ if is_space(byte) => Some(InTag::BeforeValue),
            _ => Some(InTag::Unquoted),
        },
        InTag::InDouble if byte == b'"' => Some(InTag::BeforeName),
        InTag::InSingle if byte == b'\'' => Some(InTag::BeforeName),
        InTag::Unquoted if byte == b'>' => None,
        InTag::Unquoted if is_space(byte) => Some(InTag::BeforeName),
        _ => Some(state),
    }
}

/// The length of a comment, a declaration or another construct that begins with `<!`, `<?` or `</`.
fn declaration_length(text: &[u8]) -> usize {
    match text.strip_prefix(b"<!--") {
        Some(inner) => comment_length(inner).saturating_add(4),
        None => match memchr(b'>', text) {
            Some(at) => at.saturating_add(1),
            None => text.len(),
        },
    }
}

/// The length of a comment after its `<!--`, with its end.
fn comment_length(text: &[u8]) -> usize {
    let mut state = InComment::Start;
    for (index, byte) in text.iter().enumerate() {
        match after_comment_byte(state, *byte) {
            Some(next) => state = next,
            None => return index.saturating_add(1),
        }
    }
    text.len()
}

/// The state after a byte of a comment; `None` if it ends the comment.
fn after_comment_byte(state: InComment, byte: u8) -> Option<InComment> {
    match (state, byte) {
        (InComment::Text, b'-') => Some(InComment::Dash),
        (InComment::Text, _) => Some(InComment::Text),
        (InComment::Start, b'-') => Some(InComment::StartDash),
        (InComment::Dash | InComment::Dashes, b'-') => Some(InComment::Dashes),
        (InComment::StartDash, b'-') => Some(InComment::Dashes),
        (InComment::Bang, b'-') => Some(InComment::Dash),
        (InComment::Dashes, b'!') => Some(InComment::Bang),
        (InComment::Dash, _) => Some(InComment::Text),
        (_, b'>') => None,
        _ => Some(InComment::Text),
    }
}
