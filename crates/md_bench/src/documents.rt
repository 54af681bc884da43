//! Comments, pages and articles.

use crate::blocks::{
    Margin, definition, fenced_code, figure, heading, html_block, indent, indented_code,
    item_prefix, list, note, numbered_line, numbered_list, paragraph, quote, setext_heading, table,
    thematic_break,
};
use crate::draft::Draft;
use crate::spans::{call, link_to};
use md_html::Name;

/// How many blocks a document has at most; none comes near.
const BLOCKS: usize = 100_000;

/// A comment: a line about something, and some blocks.
pub fn comment(draft: &mut Draft<'_>, number: usize) {
    draft.has_html = draft.random.once_in(8);
    if draft.random.once_in(20) {
        draft.notes = 2;
    }
    numbered_line(draft, b"About no. ", number);
    draft.blank_line();
    let blocks = if draft.random.once_in(8) {
        draft.random.between(4, 8)
    } else {
        draft.random.between(1, 4)
    };
    for _ in 0..blocks {
        comment_block(draft);
    }
    let lines = draft.random.between(1, 4);
    paragraph(draft, lines, Margin::Nothing, 1);
    draft.line_ending();
    if draft.notes > 0 {
        comment_notes(draft);
    }
}

/// A block of a comment, up to the blank line after it.
fn comment_block(draft: &mut Draft<'_>) {
    match draft.random.below(16) {
        0..=1 => {
            let items = draft.random.between(2, 5);
            list(draft, items, false, false);
            draft.leaf(Name::BlankLineEnding, b"\n");
        }
        2 => {
            let items = draft.random.between(2, 4);
            numbered_list(draft, items);
            draft.leaf(Name::BlankLineEnding, b"\n");
        }
        3..=4 => {
            let lines = draft.random.between(1, 4);
            quote(draft, lines);
            draft.blank_line();
        }
        5..=6 => {
            let lines = draft.random.between(2, 9);
            fenced_code(draft, lines, Margin::Nothing);
            draft.blank_line();
        }
        _ => {
            let lines = draft.random.between(1, 6);
            paragraph(draft, lines, Margin::Nothing, 2);
            draft.blank_line();
        }
    }
}

/// Two footnotes of a comment, the first of which is called here.
fn comment_notes(draft: &mut Draft<'_>) {
    draft.leaf(Name::BlankLineEnding, b"\n");
    draft.enter(Name::Paragraph);
    draft.data(b"", 30, b"");
    call(draft, 0);
    draft.exit(Name::Paragraph);
    draft.blank_line();
    note(draft, 0);
    draft.line_ending();
    note(draft, 1);
    draft.line_ending();
}

/// A page of about so many bytes.
pub fn page(draft: &mut Draft<'_>, number: usize, size: usize) {
    draft.links = draft.random.between(5, 40);
    draft.notes = draft.random.between(1, 6);
    numbered_line(draft, b"Part ", number);
    draft.blank_line();
    for _ in 0..BLOCKS {
        if draft.len() >= size {
            break;
        }
        page_block(draft);
    }
    call_each(draft);
    define_all(draft);
}

/// A block of a page, up to the blank line after it.
fn page_block(draft: &mut Draft<'_>) {
    match draft.random.below(32) {
        0..=2 => {
            let level = draft.random.between(2, 5);
            heading(draft, level);
        }
        3 => setext_heading(draft),
        4..=6 => {
            let lines = code_lines(draft);
            fenced_code(draft, lines, Margin::Nothing);
        }
        7 => indented_code(draft, 4),
        8 => {
            let columns = draft.random.between(2, 7);
            let rows = draft.random.between(3, 16);
            table(draft, columns, rows);
        }
        9..=10 => {
            let lines = draft.random.between(1, 5);
            quote(draft, lines);
        }
        11 => thematic_break(draft),
        12 => html_or_figure(draft),
        13..=16 => return lists(draft),
        _ => {
            let lines = draft.random.between(3, 9);
            let plain = if draft.lines.is_english { 4 } else { 8 };
            paragraph(draft, lines, Margin::Nothing, plain);
        }
    }
    draft.blank_line();
}

/// How many lines of code stand together: in English mostly some ten, at times hundreds.
fn code_lines(draft: &mut Draft<'_>) -> usize {
    if !draft.lines.is_english {
        draft.random.between(2, 8)
    } else if draft.random.once_in(5) {
        draft.random.between(60, 250)
    } else {
        draft.random.between(4, 30)
    }
}

/// HTML where the page has some, else an image.
fn html_or_figure(draft: &mut Draft<'_>) {
    if draft.has_html {
        let lines = draft.random.between(2, 6);
        html_block(draft, lines);
    } else {
        figure(draft);
    }
}

/// A list of one of the kinds, up to the blank line after it.
fn lists(draft: &mut Draft<'_>) {
    let items = draft.random.between(2, 9);
    match draft.random.below(4) {
        0 => numbered_list(draft, items),
        1 => list(draft, items, true, false),
        2 => list(draft, items, false, true),
        _ => list(draft, items, false, false),
    }
    draft.leaf(Name::BlankLineEnding, b"\n");
}

/// A paragraph that calls each footnote.
fn call_each(draft: &mut Draft<'_>) {
    draft.enter(Name::Paragraph);
    for number in 0..draft.notes {
        draft.data(b"", 40, b"");
        call(draft, number);
    }
    draft.exit(Name::Paragraph);
    draft.blank_line();
}

/// All definitions of links, and all footnotes.
fn define_all(draft: &mut Draft<'_>) {
    for number in 0..draft.links {
        definition(draft, number);
        draft.line_ending();
    }
    draft.leaf(Name::BlankLineEnding, b"\n");
    for number in 0..draft.notes {
        note(draft, number);
        draft.line_ending();
    }
}

/// An article with so many definitions of links, each of which it refers to, with footnotes and large tables.
pub fn article(draft: &mut Draft<'_>, number: usize, links: usize) {
    draft.links = links;
    draft.notes = links / 10;
    numbered_line(draft, b"Article ", number);
    draft.blank_line();
    let mut next = 0;
    for _ in 0..BLOCKS {
        if next >= links {
            break;
        }
        next = article_block(draft, next);
        draft.blank_line();
    }
    call_each(draft);
    define_all(draft);
}

/// A block of an article, which refers to definitions from the next one on; the next one after them.
fn article_block(draft: &mut Draft<'_>, next: usize) -> usize {
    match draft.random.below(40) {
        0..=3 => {
            let level = draft.random.between(2, 5);
            heading(draft, level);
            next
        }
        4 => {
            let columns = draft.random.between(3, 11);
            let rows = draft.random.between(10, 60);
            table(draft, columns, rows);
            next
        }
        5..=14 => entry_list(draft, next),
        _ => entry(draft, next, Margin::Nothing),
    }
}

/// A list of entries, up to its last item's end.
fn entry_list(draft: &mut Draft<'_>, next: usize) -> usize {
    let items = draft.random.between(3, 12);
    let mut next = next;
    draft.enter(Name::ListUnordered);
    for number in 0..items {
        if number > 0 {
            draft.line_ending();
        }
        draft.enter(Name::ListItem);
        item_prefix(draft);
        next = entry(draft, next, Margin::Spaces(b"  "));
        draft.exit(Name::ListItem);
    }
    draft.exit(Name::ListUnordered);
    next
}

/// A paragraph that refers to the next two definitions, to one of any, and now and then to a footnote.
fn entry(draft: &mut Draft<'_>, next: usize, margin: Margin) -> usize {
    let second = next.saturating_add(1).min(draft.links.saturating_sub(1));
    draft.enter(Name::Paragraph);
    draft.data(b"", 40, b" ");
    link_to(draft, next.min(second));
    draft.data(b", ", 30, b" ");
    link_to(draft, second);
    if draft.random.once_in(2) {
        draft.data(b" ", 30, b"");
        let number = draft.random.below(draft.notes);
        if draft.notes > 0 {
            call(draft, number);
        }
    }
    draft.line_ending();
    indent(draft, margin);
    draft.data(b"", 60, b" ");
    let number = draft.random.below(draft.links);
    link_to(draft, number);
    draft.exit(Name::Paragraph);
    next.saturating_add(2)
}
