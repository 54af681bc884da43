//! The calls that take no memory.

ghost use Rattle.md_base.specs.declared.event.Name.TheVariants as name;
ghost use Rattle.md_tree.specs.Texts.{EntersAt, ExitsAt};

use super::log::Log;
use super::rows::Row;
use super::texts::point;
use md_html::{
    Checked, CompileOptions, LineEnding, Name, Position, Slice, list_item_loose, list_loose,
};
use md_script::{RunError, ServeError};
use std::str::FromStr;

/// Makes the calls that need nothing that takes memory.
pub fn ask_each(log: &mut Log) {
    let cut = "a slice that is cut within tabs";
    log.tell(endings_answer(), "as_str and from_str", "line endings");
    log.tell(options_answer(), "default and gfm", "options");
    log.tell(errors_answer(), "status", "errors");
    log.tell(cut_slice_answers(), "each call but serialize", cut);
    log.tell(inner_slice_answers(), "from_indices and as_str", "a slice");
}

/// Whether line endings have their texts.
fn endings_answer() -> bool {
    LineEnding::LineFeed.as_str() == "\n"
        && LineEnding::from_str("\r\n") == Ok(LineEnding::CarriageReturnLineFeed)
        && LineEnding::from_str("aaa").is_err()
}

/// Whether the tag filter is off by default, and on for GFM.
fn options_answer() -> bool {
    !CompileOptions::default().gfm_tagfilter && CompileOptions::gfm().gfm_tagfilter
}

/// Whether errors have the expected statuses.
fn errors_answer() -> bool {
    RunError::Line(1).status() == 2 && ServeError::Input.status() == 4
}

/// Whether the methods of slices return the expected results for a chunk that is cut within tabs.
fn cut_slice_answers() -> bool {
    let position = Position {
        start: point(0, 2),
        end: point(2, 3),
    };
    match Slice::from_position(b"\ta\t", &position) {
        Some(slice) => {
            position.to_indices() == (0, 2) && slice.len() == 6 && slice.as_str() == Some("a\t")
        }
        None => false,
    }
}

/// Whether the methods of slices return the expected results between the tabs.
fn inner_slice_answers() -> bool {
    match Slice::from_indices(b"\ta\t", 1, 2) {
        Some(slice) => slice.as_str() == Some("a"),
        None => false,
    }
}

/// Makes the calls that read a checked document.
pub fn ask_of_checked(log: &mut Log, row: &Row, checked: &Checked) {
    ask_of_each(log, row, checked);
    ask_of_link(log, row, checked);
}

/// Makes those that apply to each document.
fn ask_of_each(log: &mut Log, row: &Row, checked: &Checked) {
    let (name, of_item) = (row.name, "list_item_loose and last_contributing");
    log.tell(
        is_kept(row, checked),
        "events, visits, bytes and names",
        name,
    );
    log.tell(partners_answer(row, checked), "partner", name);
    log.tell(list_answers(checked), "list_loose", name);
    log.tell(item_answers(checked), of_item, name);
}

/// Makes those for a link by a label, if it is the second node.
fn ask_of_link(log: &mut Log, row: &Row, checked: &Checked) {
    if checked.enters(1, Name::Link)
        && checked.exits(5, Name::Data)
        && checked.exits(6, Name::LabelText)
    {
        log.tell(link_answers(checked), "the calls of a link", row.name);
    }
}

/// Whether the events and the bytes are kept, with one visit of each event.
fn is_kept(row: &Row, checked: &Checked) -> bool {
    checked.events().len() == row.events.len()
        && checked.visits() == row.events.len()
        && checked.bytes() == row.document.as_bytes()
        && checked.names().len() < 2
}

/// Whether a list that is the first node isn't loose.
fn list_answers(checked: &Checked) -> bool {
    if checked.enters(0, Name::ListUnordered) {
        return !list_loose(checked, 0, false) && !list_loose(checked, 0, true);
    }
    true
}

/// Whether an item that is the second node isn't loose, and has the right contributing child.
fn item_answers(checked: &Checked) -> bool {
    if checked.enters(1, Name::ListItem) {
        return !list_item_loose(checked, 1) && checked.last_contributing(1) == Some(10);
    }
    true
}

/// Whether each event is the partner of its partner.
fn partners_answer(row: &Row, checked: &Checked) -> bool {
    (0..row.events.len()).all(|index| match checked.partner(index) {
        Some(other) => other != index && checked.partner(other) == Some(index),
        None => false,
    })
}

/// Whether the calls for a link return the expected results, if the second node is a link by a
/// label.
fn link_answers(checked: &Checked) -> bool
    requires link { EntersAt checked.now.events 1 name.Link }
    requires text { ExitsAt checked.now.events 5 name.Data }
    requires label { ExitsAt checked.now.events 6 name.LabelText }
{
    checked
        .reads(1)
        .is_some_and(|place| place.to_indices() == (1, 2))
        && checked.first_ending() == Some(11)
        && checked.definitions() == [14, 26].as_slice()
        && checked.text(5) == "a"
        && checked.identifier(6) == "a"
        && text_by_points(checked) == Some("a")
}

/// The text of the node that the fifth event enters and the sixth exits, by their points.
fn text_by_points<'a>(checked: &Checked<'a>) -> Option<&'a str> {
    let entry = checked.events().get(4)?;
    let exit = checked.events().get(5)?;
    checked.text_between(entry.point, exit.point)
}
