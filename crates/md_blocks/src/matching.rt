//! Which open containers a line continues.

ghost use Rattle.std.specs.Prelude.{◌≡◌, ◌≤◌, Some, None, false, IsTrue, length};
ghost use Rattle.md_blocks.specs.Positions.{rest_of};
ghost use Rattle.md_blocks.specs.Containers.{continued, matched, quote_continued};
ghost use Rattle.md_blocks.specs.Containers.{indented_continued};

use crate::block::ContainerKind;
use crate::nesting::Open;
use crate::pass::CODE_INDENT;
use crate::position::Position;

/// Skips the markers and indentation by which the line continues open blocks. Returns how many
/// it continues, from the outermost.
#[inline(always)]
pub(crate) fn match_containers(stack: &[Open], position: &mut Position<'_>) -> usize
    ensures count { result ≡ (matched 0 stack.now (rest_of position.old)).count }
    ensures rest { rest_of position.new ≡ (matched 0 stack.now (rest_of position.old)).rest }
    ensures some { result ≤ length stack.now }
    ensures at { position.old.at ≤ position.new.at }
    ensures line { position.new.line ≡ position.old.line }
    ensures ending { position.new.ending ≡ position.old.ending }
{
    let mut matched = 0;
    for container in stack {
        if !goes_on_in(*container, position) {
            break;
        }
        matched += 1;
    }
    matched
}

/// Skips the marker or indentation by which the line continues an open block; returns whether it
/// continues it.
#[inline(always)]
fn goes_on_in(container: Open, position: &mut Position<'_>) -> bool
    ensures goes_on { IsTrue result → continued container (rest_of position.old) ≡ Some (rest_of position.new) }
    ensures stops { result ≡ false → continued container (rest_of position.old) ≡ None }
    ensures stays { result ≡ false → rest_of position.new ≡ rest_of position.old }
    ensures at { position.old.at ≤ position.new.at }
    ensures line { position.new.line ≡ position.old.line }
    ensures ending { position.new.ending ≡ position.old.ending }
{
    match container.kind {
        ContainerKind::OrderedList | ContainerKind::UnorderedList => true,
        ContainerKind::Quote => goes_on_in_quote(position),
        ContainerKind::Item => {
            if position.is_blank() && !container.has_child {
                return false;
            }
            goes_on_indented(container.indent, position)
        }
        ContainerKind::FootnoteDefinition => goes_on_indented(CODE_INDENT, position),
    }
}

/// Skips a quote's mark; returns whether there was one.
#[inline]
fn goes_on_in_quote(position: &mut Position<'_>) -> bool
    ensures goes_on { IsTrue result → quote_continued (rest_of position.old) ≡ Some (rest_of position.new) }
    ensures stops { result ≡ false → quote_continued (rest_of position.old) ≡ None }
    ensures stays { result ≡ false → rest_of position.new ≡ rest_of position.old }
    ensures at { position.old.at ≤ position.new.at }
    ensures line { position.new.line ≡ position.old.line }
    ensures ending { position.new.ending ≡ position.old.ending }
{
    if position.indent > 3 || position.byte() != Some(b'>') {
        return false;
    }
    position.pass_quote_mark();
    true
}

/// Skips `columns` columns of indentation; returns whether the line has them, or is blank.
#[inline]
fn goes_on_indented(columns: usize, position: &mut Position<'_>) -> bool
    ensures goes_on { IsTrue result → indented_continued columns (rest_of position.old) ≡ Some (rest_of position.new) }
    ensures stops { result ≡ false → indented_continued columns (rest_of position.old) ≡ None }
    ensures stays { result ≡ false → rest_of position.new ≡ rest_of position.old }
    ensures at { position.old.at ≤ position.new.at }
    ensures line { position.new.line ≡ position.old.line }
    ensures ending { position.new.ending ≡ position.old.ending }
{
    if position.indent < columns && !position.is_blank() {
        return false;
    }
    position.advance(columns);
    true
}
