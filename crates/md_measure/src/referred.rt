//! What a document reads again: in the definitions that its links and images refer to, and in its
//! footnote calls.

ghost use Rattle.std.specs.Prelude.{◌≡◌, ◌<◌, ◌-◌, ◌^◌, ◌+◌, IfOk, length, slice_get, Some};
ghost use Rattle.md_base.specs.Tree.{Forest, flatten};
ghost use Rattle.md_tree.specs.declared.mention.Mention.{Mention};
ghost use Rattle.md_tree.specs.Mentions.{mentions_of};
ghost use Rattle.md_tree.specs.Numbers.{definition_for};
ghost use Rattle.md_length.specs.Work.{before_definition, read_length, covered};
ghost use Rattle.md_length.specs.Reuse.{definition_length, definition_lengths, length_at};
ghost use Rattle.md_length.specs.Reuse.{referred, is_media, is_call};
ghost use Rattle.md_measure.specs.Counting.{capped};
ghost use Rattle.md_measure.specs.Referred.{IsCounted, AreLengths};

use crate::covered::Progress;
use crate::parts::is_call;
use crate::read::is_read;
use md_base::name_tests::is_link_definition;
use md_base::{Event, Kind, Name};
use md_tree::Checked;
use std::alloc::{AllocError, Global};

/// For each link and image of a document the length of what is read in the definition that it
/// refers to, plus the number of that definition's events.
///
/// # Errors
///
/// `AllocError`, only if memory runs out.
pub fn referred_of(alloc: Global, checked: &Checked) -> Result<u128, AllocError>
    ensures { IfOk result (IsCounted (referred checked.now.bytes) checked.now) }
{
    if checked.definitions().is_empty() {
        return Ok(0);
    }
    let lengths = lengths_of(alloc, checked)?;
    Ok(referred_length(checked, lengths.as_slice()))
}

/// The length of what is read in each definition, plus the number of its events, in the order of
/// their exits.
fn lengths_of(alloc: Global, checked: &Checked) -> Result<Vec<u128>, AllocError>
    ensures { IfOk result (λ lengths. AreLengths checked.now lengths.items) }
{
    let events = checked.events();
    let mut lengths = Vec::new(alloc);
    for entry in checked.definitions() {
        lengths.push(length_behind(events, *entry))?;
    }
    Ok(lengths)
}

/// The length of what is read in the definition that the event at an index enters, plus the number
/// of its events.
fn length_behind(events: &[Event], entry: usize) -> u128
    requires { entry < length events.now }
    ensures { result ≡ capped (definition_length events.now entry) }
{
    definition_length(&events[entry + 1..])
}

/// The length of what is read before the next event of a definition, plus one for each event before
/// it.
fn definition_length(events: &[Event]) -> u128
    ensures { result ≡ capped (read_length (before_definition events.now)
        + length (before_definition events.now)) }
{
    let mut progress = Progress::new();
    let mut count: usize = 0;
    let mut rest = events;
    while let Some((event, following)) = rest.split_first() {
        if is_link_definition(event.name) {
            break;
        }
        progress.note(event, is_read(event.name));
        count += 1;
        rest = following;
    }
    progress.length.saturating_add(count as u128)
}

/// The same as [`referred_of`], given the lengths of the definitions.
fn referred_length(checked: &Checked, lengths: &[u128]) -> u128
    requires { AreLengths checked.now lengths.now }
    ensures { IsCounted (referred checked.now.bytes) checked.now result }
{
    let mut referred: u128 = 0;
    let mut index = 0;
    let mut rest = checked.events();
    while let Some((event, following)) = rest.split_first() {
        referred = referred.saturating_add(referred_at(checked, lengths, index, event));
        index += 1;
        rest = following;
    }
    referred
}

/// The length of what is read in the definition that the link or the image refers to, if an event
/// exits one.
#[inline(always)]
fn referred_at(checked: &Checked, lengths: &[u128], index: usize, event: &Event) -> u128
    requires there { slice_get checked.now.events index ≡ Some event.now }
    requires lengths { AreLengths checked.now lengths.now }
    ensures { (document : Forest) (mention : Mention) → flatten document ≡ checked.now.events
        → slice_get (mentions_of document) index ≡ Some mention
        → result ≡ capped (length_at (definition_lengths document)
        (definition_for checked.now.bytes (mentions_of document) mention)) }
{
    match event.kind {
        Kind::Exit if is_media(event.name) => {
            let led = checked.definition_of(index);
            length_in(lengths, led)
        }
        _ => 0,
    }
}

/// The length at an index, and 0 if there is none.
fn length_in(lengths: &[u128], place: Option<usize>) -> u128
    ensures { result ≡ length_at lengths.now place }
{
    match place {
        Some(place) => lengths.get(place).copied().unwrap_or(0),
        None => 0,
    }
}

/// Whether a name is that of a link or an image.
#[inline(always)]
fn is_media(name: Name) -> bool
    ensures { result ≡ is_media name }
{
    matches!(name, Name::Link | Name::Image)
}

/// The sum of the lengths of footnote calls.
pub fn call_lengths(events: &[Event]) -> u128
    ensures { result ≡ capped (covered is_call events.now) }
{
    let mut progress = Progress::new();
    let mut rest = events;
    while let Some((event, following)) = rest.split_first() {
        progress.note(event, is_call(event.name));
        rest = following;
    }
    progress.length
}
