//! Lines of a script that set options, and the options of a script.

ghost use Rattle.std.specs.Prelude.{◌≡◌, unwrap_or, option_and_then, option_copied, option_map};
ghost use Rattle.std.specs.Prelude.{string_bytes, IfOk};
ghost use Rattle.md_script.specs.Setting as spec;
ghost use Rattle.md_script.specs.Setting.{ending_named, ending_name, is_equals, HasOptions};
ghost use Rattle.std.specs.List.{after_first};
ghost use Rattle.std.specs.Str.{is_utf8};
ghost use Rattle.md_text.specs.declared.line_ending.LineEnding.TheVariants.{LineFeed};

use crate::split::split_at_first;
use md_text::{CompileOptions, LineEnding};
use std::alloc::{AllocError, Global};

/// The names of options that are flags.
const FLAG_NAMES: [&[u8]; 6] = [
    b"allow_any_img_src",
    b"allow_dangerous_html",
    b"allow_dangerous_protocol",
    b"gfm_task_list_item_checkable",
    b"gfm_tagfilter",
    b"gfm_footnote_number_ids",
];

/// The names of options that are texts.
const TEXT_NAMES: [&[u8]; 5] = [
    b"gfm_footnote_back_label",
    b"gfm_footnote_clobber_prefix",
    b"gfm_footnote_label",
    b"gfm_footnote_label_attributes",
    b"gfm_footnote_label_tag_name",
];

const ENDING_NAME: &[u8] = b"default_line_ending";

const LINE_FEED: &[u8] = b"lf";

const CARRIAGE_RETURN: &[u8] = b"cr";

const CARRIAGE_RETURN_LINE_FEED: &[u8] = b"crlf";

/// Whether a line is `!` and the name of a flag, or `!` and an assignment.
pub fn is_setting(line: &[u8]) -> bool
    ensures { result ≡ spec.is_setting line.now }
{
    let Some((sign, rest)) = line.split_first() else {
        return false;
    };
    if *sign != b'!' {
        return false;
    }
    match split_at_first(rest, b'=') {
        Some((name, value)) => is_assignment(name, value),
        None => is_among(&FLAG_NAMES, rest),
    }
}

fn is_assignment(name: &[u8], value: &[u8]) -> bool
    ensures { result ≡ spec.is_assignment name.now value.now }
{
    if name == ENDING_NAME {
        read_line_ending(value).is_some()
    } else {
        is_among(&TEXT_NAMES, name) && is_utf8(value)
    }
}

fn is_utf8(bytes: &[u8]) -> bool
    ensures { result ≡ is_utf8 bytes.now }
{
    std::str::from_utf8(bytes).is_ok()
}

fn is_among(names: &[&[u8]], text: &[u8]) -> bool
    ensures { result ≡ spec.is_among (spec.texts_of names.now) text.now }
{
    for name in names {
        if *name == text {
            return true;
        }
    }
    false
}

fn read_line_ending(name: &[u8]) -> Option<LineEnding>
    ensures { result ≡ ending_named name.now }
{
    if name == LINE_FEED {
        Some(LineEnding::LineFeed)
    } else if name == CARRIAGE_RETURN {
        Some(LineEnding::CarriageReturn)
    } else if name == CARRIAGE_RETURN_LINE_FEED {
        Some(LineEnding::CarriageReturnLineFeed)
    } else {
        None
    }
}

/// Whether a line sets an option that none of these lines sets.
pub fn is_new(lines: &[&[u8]], line: &[u8]) -> bool
    ensures { result ≡ spec.is_new (spec.texts_of lines.now) (spec.option_name line.now) }
{
    match option_name(line) {
        Some(name) => !is_given(lines, name),
        None => false,
    }
}

/// The name after `!`.
fn option_name(line: &[u8]) -> Option<&[u8]>
    ensures { option_copied result ≡ spec.option_name line.now }
{
    let (sign, rest) = line.split_first()?;
    if *sign != b'!' {
        return None;
    }
    match split_at_first(rest, b'=') {
        Some((name, _)) => Some(name),
        None => Some(rest),
    }
}

/// Whether one of these lines sets the option of this name.
fn is_given(lines: &[&[u8]], name: &[u8]) -> bool
    ensures { result ≡ spec.is_given (spec.texts_of lines.now) name.now }
{
    for line in lines {
        if sets(line, name) {
            return true;
        }
    }
    false
}

fn sets(line: &[u8], name: &[u8]) -> bool
    ensures { result ≡ spec.is_name name.now (spec.option_name line.now) }
{
    match option_name(line) {
        Some(other) => other == name,
        None => false,
    }
}

/// The value of the first such line, if it is UTF-8.
fn value_given<'a>(lines: &[&'a [u8]], name: &[u8]) -> Option<&'a str>
    ensures { option_copied result ≡ spec.text_given (spec.texts_of lines.now) name.now }
{
    for line in lines {
        if sets(line, name) {
            return value_after_equals(line);
        }
    }
    None
}

/// The text after the first `=`, if it is UTF-8.
fn value_after_equals(line: &[u8]) -> Option<&str>
    ensures { option_copied result ≡ spec.value_of line.now }
{
    std::str::from_utf8(after_equals(line)).ok()
}

fn after_equals(line: &[u8]) -> &[u8]
    ensures { result.now ≡ after_first is_equals line.now }
{
    match split_at_first(line, b'=') {
        Some((_, value)) => value,
        None => &[],
    }
}

fn text_given(alloc: Global, lines: &[&[u8]], name: &[u8]) -> Result<Option<String>, AllocError>
    ensures { IfOk result (λ text. option_map string_bytes text
        ≡ spec.text_given (spec.texts_of lines.now) name.now) }
{
    match value_given(lines, name) {
        Some(value) => Ok(Some(String::from_str(alloc, value)?)),
        None => Ok(None),
    }
}

fn line_ending_given(lines: &[&[u8]]) -> LineEnding
    ensures { let given = spec.text_given (spec.texts_of lines.now) ending_name in
        result ≡ unwrap_or (option_and_then ending_named given) LineFeed }
{
    match value_given(lines, ENDING_NAME) {
        Some(name) => read_line_ending(name.as_bytes()).unwrap_or(LineEnding::LineFeed),
        None => LineEnding::LineFeed,
    }
}

/// Returns the options that these lines set; all others are off or unset.
///
/// # Errors
///
/// Returns an error only if memory runs out.
pub fn options_given(alloc: Global, lines: &[&[u8]]) -> Result<CompileOptions, AllocError>
    ensures { IfOk result (HasOptions (spec.texts_of lines.now)) }
{
    Ok(CompileOptions {
        gfm_footnote_back_label: text_given(alloc, lines, b"gfm_footnote_back_label")?,
        gfm_footnote_clobber_prefix: text_given(alloc, lines, b"gfm_footnote_clobber_prefix")?,
        gfm_footnote_label: text_given(alloc, lines, b"gfm_footnote_label")?,
        gfm_footnote_label_attributes: text_given(alloc, lines, b"gfm_footnote_label_attributes")?,
        gfm_footnote_label_tag_name: text_given(alloc, lines, b"gfm_footnote_label_tag_name")?,
        allow_any_img_src: is_given(lines, b"allow_any_img_src"),
        allow_dangerous_html: is_given(lines, b"allow_dangerous_html"),
        allow_dangerous_protocol: is_given(lines, b"allow_dangerous_protocol"),
        gfm_task_list_item_checkable: is_given(lines, b"gfm_task_list_item_checkable"),
        gfm_tagfilter: is_given(lines, b"gfm_tagfilter"),
        gfm_footnote_number_ids: is_given(lines, b"gfm_footnote_number_ids"),
        default_line_ending: line_ending_given(lines),
    })
}
