//! The calls that take texts.

use super::log::{Log, again};
use super::rows::NAMES;
use md_html::{
    Point, Position, Slice, decode_character_reference, encode, gfm_tagfilter,
    normalize_identifier, sanitize, sanitize_with_protocols,
};
use std::alloc::{AllocError, Global};

/// A call that takes a text.
enum Tool {
    /// `encode`, with or without HTML.
    Encode(bool),
    Sanitize,
    /// `sanitize_with_protocols`, with only `http`.
    SanitizeWithHttp,
    Tagfilter,
    Normalize,
    /// `decode_character_reference`, by its marker.
    Decode(u8),
    /// `Slice::serialize` for all bytes, with two columns of a tab cut at each end.
    Serialize,
}

/// A call by its name, its input, and its expected result, if there is enough memory.
type Case = (&'static str, Tool, &'static str, Option<&'static str>);

static CASES: [Case; 17] = [
    ("encode", Tool::Encode(true), "I <3 🦀", Some("I &lt;3 🦀")),
    (
        "encode",
        Tool::Encode(false),
        "a\0<b>",
        Some("a\u{fffd}<b>"),
    ),
    ("sanitize", Tool::Sanitize, "%%41", Some("%25%41")),
    ("sanitize", Tool::Sanitize, "%zz%", Some("%25zz%25")),
    (
        "sanitize",
        Tool::Sanitize,
        "https://a👍b.c/%20/%",
        Some("https://a%F0%9F%91%8Db.c/%20/%25"),
    ),
    (
        "sanitize_with_protocols",
        Tool::SanitizeWithHttp,
        "./a:b",
        Some("./a:b"),
    ),
    (
        "sanitize_with_protocols",
        Tool::SanitizeWithHttp,
        "a&b:c",
        Some(""),
    ),
    (
        "sanitize_with_protocols",
        Tool::SanitizeWithHttp,
        "HTTP://A",
        Some("HTTP://A"),
    ),
    (
        "gfm_tagfilter",
        Tool::Tagfilter,
        "<scripts><script",
        Some("<scripts>&lt;script"),
    ),
    (
        "gfm_tagfilter",
        Tool::Tagfilter,
        "<iframe>",
        Some("&lt;iframe>"),
    ),
    ("normalize_identifier", Tool::Normalize, "a", Some("a")),
    ("normalize_identifier", Tool::Normalize, "A", Some("a")),
    (
        "decode_character_reference",
        Tool::Decode(b'#'),
        "10",
        Some("\n"),
    ),
    (
        "decode_character_reference",
        Tool::Decode(b'#'),
        "97",
        Some("a"),
    ),
    (
        "decode_character_reference",
        Tool::Decode(b'&'),
        "x",
        Some("<"),
    ),
    (
        "decode_character_reference",
        Tool::Decode(b'&'),
        "amp",
        None,
    ),
    ("serialize", Tool::Serialize, "\ta\t", Some("  a\t  ")),
];

/// Makes each call.
pub fn ask_each(alloc: Global, log: &mut Log) {
    ask_cases(alloc, log, &CASES);
}

/// Makes each of these calls.
fn ask_cases(alloc: Global, log: &mut Log, cases: &[Case]) {
    for (call, tool, text, wanted) in cases {
        let is_right = is_answered(alloc, log, tool, text, *wanted);
        log.tell(is_right, call, text);
    }
}

/// Whether a call returns the expected result.
fn is_answered(
    alloc: Global,
    log: &mut Log,
    tool: &Tool,
    text: &str,
    wanted: Option<&str>,
) -> bool {
    match again!(log, Err(AllocError), answer(alloc, tool, text)) {
        Ok(answer) => answer.as_ref().map(|text| text.as_str()) == wanted,
        Err(AllocError) => false,
    }
}

/// The result of a call.
fn answer(alloc: Global, tool: &Tool, text: &str) -> Result<Option<String>, AllocError> {
    match tool {
        Tool::Encode(encodes) => encode(alloc, text, *encodes).map(Some),
        Tool::Sanitize => sanitize(alloc, text).map(Some),
        Tool::SanitizeWithHttp => sanitize_with_protocols(alloc, text, &["http"]).map(Some),
        Tool::Tagfilter => gfm_tagfilter(alloc, text).map(Some),
        Tool::Normalize => normalize_identifier(alloc, text).map(Some),
        Tool::Decode(marker) => decode_character_reference(alloc, text, *marker, &NAMES),
        Tool::Serialize => serialize(alloc, text.as_bytes()),
    }
}

/// The text of bytes whose ends are cut within tabs.
fn serialize(alloc: Global, bytes: &[u8]) -> Result<Option<String>, AllocError> {
    let position = Position {
        start: point(0, 2),
        end: point(bytes.len().saturating_sub(1), 3),
    };
    match Slice::from_position(bytes, &position) {
        Some(slice) => slice.serialize(alloc),
        None => Ok(None),
    }
}

/// A point.
pub fn point(index: usize, vs: usize) -> Point {
    Point {
        line: 1,
        column: 1,
        index,
        vs,
    }
}
