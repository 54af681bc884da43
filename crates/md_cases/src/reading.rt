//! Reads scripts independently of the program's own reader, so that the calls that `run` makes are
//! tested as well.

use md_base::names_by_length;
use md_html::{CompileOptions, Event, Kind, LineEnding, Name, Point};
use std::alloc::{AllocError, Global};

/// The content of a script.
#[derive(Drop)]
pub(crate) struct Script<'a> {
    pub(crate) events: Vec<Event>,
    pub(crate) document: &'a [u8],
    pub(crate) options: CompileOptions,
}

/// The names of references in a script's document, each with its text.
pub(crate) static REFERENCE_NAMES: [(&str, &str); 9] = [
    ("amp", "&"),
    ("lt", "<"),
    ("gt", ">"),
    ("quot", "\""),
    ("apos", "'"),
    ("colon", ":"),
    ("sol", "/"),
    ("num", "#"),
    ("quest", "?"),
];

impl<'a> Script<'a> {
    /// A script without lines.
    pub(crate) fn new(alloc: Global) -> Self {
        Script {
            events: Vec::new(alloc),
            document: &[],
            options: CompileOptions::default(),
        }
    }

    /// Reads the lines before the document, and the document; returns whether each line is valid.
    pub(crate) fn read(&mut self, alloc: Global, input: &'a [u8]) -> Result<bool, AllocError> {
        let mut length: usize = 0;
        for line in input.split(|byte| *byte == b'\n') {
            length = length.saturating_add(line.len()).saturating_add(1);
            if line == b"--".as_slice() {
                self.document = input.get(length..).unwrap_or(&[]);
                return Ok(true);
            }
            if !take_line(alloc, self, line)? {
                break;
            }
        }
        Ok(false)
    }
}

/// Reads a line; returns whether it is valid.
fn take_line(alloc: Global, script: &mut Script<'_>, line: &[u8]) -> Result<bool, AllocError> {
    match std::str::from_utf8(line) {
        Ok(line) => take_text(alloc, script, line),
        Err(_) => Ok(false),
    }
}

/// Reads a line of text; returns whether it is valid.
fn take_text(alloc: Global, script: &mut Script<'_>, line: &str) -> Result<bool, AllocError> {
    if let Some(option) = line.strip_prefix('!') {
        return take_option(alloc, &mut script.options, option);
    }
    match event_of(line) {
        Some(event) => {
            script.events.push(event)?;
            Ok(true)
        }
        None => Ok(false),
    }
}

/// The event of a line.
fn event_of(line: &str) -> Option<Event> {
    match line.strip_prefix('+') {
        Some(node) => event(Kind::Enter, node),
        None => event(Kind::Exit, line.strip_prefix('-')?),
    }
}

fn event(kind: Kind, node: &str) -> Option<Event> {
    let (name, place) = node.split_once(' ')?;
    let (index, vs) = place.split_once('.').unwrap_or((place, "0"));
    Some(Event {
        kind,
        name: name_of(name)?,
        point: Point {
            line: 1,
            column: 1,
            index: index.parse().ok()?,
            vs: vs.parse().ok()?,
        },
    })
}

/// Sets an option; returns whether it exists.
fn take_option(
    alloc: Global,
    options: &mut CompileOptions,
    option: &str,
) -> Result<bool, AllocError> {
    match option.split_once('=') {
        Some(("default_line_ending", name)) => Ok(set_ending(options, name)),
        Some((name, value)) => set_text(options, name, String::from_str(alloc, value)?),
        None => Ok(set_flag(options, option)),
    }
}

fn set_ending(options: &mut CompileOptions, name: &str) -> bool {
    options.default_line_ending = match name {
        "lf" => LineEnding::LineFeed,
        "cr" => LineEnding::CarriageReturn,
        "crlf" => LineEnding::CarriageReturnLineFeed,
        _ => return false,
    };
    true
}

fn set_text(options: &mut CompileOptions, name: &str, value: String) -> Result<bool, AllocError> {
    let option = match name {
        "gfm_footnote_back_label" => &mut options.gfm_footnote_back_label,
        "gfm_footnote_clobber_prefix" => &mut options.gfm_footnote_clobber_prefix,
        "gfm_footnote_label" => &mut options.gfm_footnote_label,
        "gfm_footnote_label_attributes" => &mut options.gfm_footnote_label_attributes,
        "gfm_footnote_label_tag_name" => &mut options.gfm_footnote_label_tag_name,
        _ => return Ok(false),
    };
    *option = Some(value);
    Ok(true)
}

fn set_flag(options: &mut CompileOptions, name: &str) -> bool {
    match name {
        "allow_any_img_src" => options.allow_any_img_src = true,
        "allow_dangerous_html" => options.allow_dangerous_html = true,
        "allow_dangerous_protocol" => options.allow_dangerous_protocol = true,
        "gfm_task_list_item_checkable" => options.gfm_task_list_item_checkable = true,
        "gfm_tagfilter" => options.gfm_tagfilter = true,
        "gfm_footnote_number_ids" => options.gfm_footnote_number_ids = true,
        _ => return false,
    }
    true
}

/// The name with a spelling.
pub(crate) fn name_of(text: &str) -> Option<Name> {
    if let Some(number) = text.strip_prefix("Other") {
        return Some(Name::Other(number.parse().ok()?));
    }
    listed(names_by_length().get(text.len())?, text)
}

/// The name next to a spelling in a list.
fn listed(names: &[(&str, Name)], text: &str) -> Option<Name> {
    for (spelling, name) in names {
        if *spelling == text {
            return Some(*name);
        }
    }
    None
}
