//! Reads a script: its events, its options and its document.

ghost use Rattle.std.specs.Prelude.{◌≡◌, bytes_eq, ◌+◌, ◌<◌, vec_len, ◌&&◌, ◌||◌, [], ◌∷◌, ◌++◌};
ghost use Rattle.std.specs.Prelude.{true, if◌then◌else◌, is_some, option_to_list, length};
ghost use Rattle.std.specs.Prelude.{MatchOption, IfOk, OnOk, IfErr};
ghost use Rattle.std.specs.Vec.{vec_capacity};
ghost use Rattle.md_script.specs.Line.{lines_of, event_of};
ghost use Rattle.md_script.specs.Setting.{texts_of, is_setting, option_name, is_new};
ghost use Rattle.md_script.specs.Script.{Explains};
ghost use Rattle.md_script.specs.Script.{end_line, StandsFor};

use crate::error::RunError;
use crate::line::read_event;
use crate::plain_line::{read_common_line, read_plain_line};
use crate::setting::{is_new, is_setting, options_given};
use crate::split::split_at_first;
use md_base::Event;
use md_html::CompileOptions;
use std::alloc::{AllocError, Global};
use std::simd::prelude::*;

/// The line that ends a script.
const END_LINE: &[u8] = b"--";

/// From this number of events, the remaining lines are counted.
const MANY_EVENTS: usize = 128;

/// The maximum length in bytes of most lines.
const LINE_SIZE: usize = 16;

/// The number of bytes that one step reads.
const BLOCK_SIZE: usize = 64;

/// The content of a script.
#[derive(Drop)]
pub(crate) struct Script<'a> {
    pub(crate) events: Vec<Event>,
    pub(crate) document: &'a [u8],
    pub(crate) options: CompileOptions,
}

/// Reads the lines of a script up to the line that ends it; the document follows that line.
pub(crate) fn read_script(alloc: Global, input: &[u8]) -> Result<Script<'_>, RunError>
    ensures ok { IfOk result (λ script.
        StandsFor input.now script.events.items script.document.now script.options) }
    ensures err { IfErr result (λ error. Explains input.now error) }
{
    let mut events = Vec::new(alloc);
    let mut settings = Vec::new(alloc);
    let mut rest = input;
    'lines: loop {
        if let Some((event, following)) = read_common_line(rest) {
            keep_event(&mut events, event, following)?;
            rest = following;
            continue;
        }
        if let Some((event, following)) = read_plain_line(rest) {
            keep_event(&mut events, event, following)?;
            rest = following;
            continue;
        }
        let (line, following) = first_line(rest);
        if is_end(line) {
            let document = following.unwrap_or(&[]);
            let options = options_given(alloc, settings.as_slice())?;
            return Ok(Script {
                events,
                document,
                options,
            });
        }
        // Each line so far is a stored event or setting.
        let read_lines = events.len() + settings.len();
        if !take_line(&mut events, &mut settings, line)? {
            return Err(RunError::Line(read_lines + 1));
        }
        let Some(following) = following else {
            return Err(RunError::Line(read_lines + 2));
        };
        rest = following;
    }
}

/// Appends an event; `following` is the input after its line.
fn keep_event(events: &mut Vec<Event>, event: Event, following: &[u8]) -> Result<(), AllocError>
    ensures { OnOk result (events.new.items ≡ events.old.items ++ event ∷ []) }
{
    if events.len() == events.capacity() {
        make_room(events, following)?;
    }
    events.push_reserved(event);
    Ok(())
}

/// Reserves capacity for one more event, and doubles it unless fewer lines follow. So the capacity
/// never exceeds that of growth by doubling.
#[inline(never)]
fn make_room(events: &mut Vec<Event>, following: &[u8]) -> Result<(), AllocError>
    ensures events { events.new.items ≡ events.old.items }
    ensures room { OnOk result (vec_len events.new < vec_capacity events.new) }
{
    let count = events.len();
    if count >= MANY_EVENTS && following.len() / LINE_SIZE <= count {
        let more = count.min(line_feeds(following).saturating_add(1));
        return events.reserve_exact(more);
    }
    events.reserve(1)
}

/// The number of line feeds in whole blocks of bytes, and in the rest.
fn line_feeds(bytes: &[u8]) -> usize {
    let mut count: usize = 0;
    let mut rest = bytes;
    while BLOCK_SIZE <= rest.len() {
        let feeds = Simd::<u8, BLOCK_SIZE>::from_slice(rest).simd_eq(Simd::splat(b'\n'));
        count = count.saturating_add(feeds.to_bitmask().count_ones() as usize);
        rest = &rest[BLOCK_SIZE..];
    }
    count.saturating_add(rest.iter().filter(|byte| **byte == b'\n').count())
}

/// Stores a line's event, or the line itself if it sets an option; returns whether the line is
/// valid.
fn take_line<'a>(
    events: &mut Vec<Event>,
    settings: &mut Vec<&'a [u8]>,
    line: &'a [u8],
) -> Result<bool, AllocError>
    ensures taken { IfOk result (λ taken. taken ≡ (is_some (event_of line.now)
        || is_setting line.now && is_new (texts_of settings.old.items) (option_name line.now))) }
    ensures events { OnOk result
        (events.new.items ≡ events.old.items ++ option_to_list (event_of line.now)) }
    ensures settings { IfOk result (λ taken. taken ≡ true → texts_of settings.new.items
        ≡ texts_of settings.old.items
        ++ (if is_some (event_of line.now) then [] else line.now ∷ [])) }
{
    if let Some(event) = read_event(line) {
        events.push(event)?;
        return Ok(true);
    }
    keep_setting(settings, line)
}

/// Stores a line that sets an option, unless an earlier line sets it; returns whether it was
/// stored.
fn keep_setting<'a>(settings: &mut Vec<&'a [u8]>, line: &'a [u8]) -> Result<bool, AllocError>
    ensures kept { IfOk result (λ kept. kept ≡ (is_setting line.now
        && is_new (texts_of settings.old.items) (option_name line.now))) }
    ensures settings { IfOk result (λ kept. kept ≡ true → texts_of settings.new.items
        ≡ texts_of settings.old.items ++ line.now ∷ []) }
{
    if is_setting(line) && is_new(settings.as_slice(), line) {
        settings.push(line)?;
        return Ok(true);
    }
    Ok(false)
}

/// Whether a line ends a script.
fn is_end(line: &[u8]) -> bool
    ensures { result ≡ bytes_eq line.now end_line }
{
    line == END_LINE
}

/// The first line, and the bytes after its line feed, if it has one.
fn first_line(input: &[u8]) -> (&[u8], Option<&[u8]>)
    ensures lines { MatchOption result.1 (lines_of input.now ≡ result.0.now ∷ [])
        (λ following. lines_of input.now ≡ result.0.now ∷ lines_of following.now) }
    ensures len { MatchOption result.1 (length result.0.now ≡ length input.now)
        (λ following. length result.0.now + length following.now + 1 ≡ length input.now) }
{
    match split_at_first(input, b'\n') {
        Some((line, following)) => (line, Some(following)),
        None => (input, None),
    }
}
