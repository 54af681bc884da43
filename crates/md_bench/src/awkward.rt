//! What strangers send: deep nests, very many of one thing, long addresses, texts of special characters alone.

use crate::blocks::{definition, item_prefix, note_prefix, quote_prefix};
use crate::draft::Draft;
use crate::spans::{
    call, close_destination, close_label, close_resource, escape, open_image_label, open_label,
    open_resource, reference,
};
use md_html::Name;

/// All kinds.
pub static KINDS: [Kind; 10] = [
    Kind::Quotes,
    Kind::Emphases,
    Kind::Lists,
    Kind::Media,
    Kind::Definitions,
    Kind::Calls,
    Kind::Addresses,
    Kind::Specials,
    Kind::BrokenList,
    Kind::ShortTexts,
];

/// The kinds of documents.
#[derive(Clone, Copy)]
pub enum Kind {
    Quotes,
    Emphases,
    Lists,
    Media,
    Definitions,
    Calls,
    Addresses,
    Specials,
    BrokenList,
    ShortTexts,
}

impl Kind {
    /// How many calls are made over a document of this kind: fewer where one takes longer.
    pub fn rounds(self) -> usize {
        match self {
            Kind::Definitions | Kind::Calls => 1,
            Kind::Lists | Kind::Media => 2,
            Kind::Quotes | Kind::Emphases => 3,
            Kind::BrokenList => 5,
            Kind::Addresses => 6,
            Kind::Specials => 9,
            Kind::ShortTexts => 12,
        }
    }
}

/// Writes a document of a kind, in which something stands about so many times.
pub fn write_awkward(draft: &mut Draft<'_>, kind: Kind, size: usize) {
    match kind {
        Kind::Quotes => quotes(draft, size),
        Kind::Emphases => emphases(draft, size),
        Kind::Lists => nested_lists(draft, size),
        Kind::Media => media(draft, size / 2),
        Kind::Definitions => definitions(draft, size / 5 * 3),
        Kind::Calls => calls(draft, size),
        Kind::Addresses => addresses(draft, size / 40),
        Kind::Specials => specials(draft, size / 2),
        Kind::BrokenList => broken_list(draft, size / 2),
        Kind::ShortTexts => short_texts(draft, size),
    }
}

/// A paragraph with a few words.
fn words(draft: &mut Draft<'_>) {
    draft.enter(Name::Paragraph);
    texts(draft);
    draft.exit(Name::Paragraph);
}

fn texts(draft: &mut Draft<'_>) {
    draft.enter(Name::Data);
    draft.tag();
    draft.exit(Name::Data);
    draft.data(b" ", 40, b"");
    draft.data(b" ", 40, b"");
    draft.data(b" ", 40, b" of them");
}

fn quotes(draft: &mut Draft<'_>, size: usize) {
    for _ in 0..size {
        draft.enter(Name::BlockQuote);
        quote_prefix(draft);
    }
    words(draft);
    for _ in 0..size {
        draft.exit(Name::BlockQuote);
    }
}

fn emphases(draft: &mut Draft<'_>, size: usize) {
    let sequence = Name::Other(19);
    let text = Name::Other(20);
    draft.enter(Name::Paragraph);
    for _ in 0..size {
        draft.enter(Name::Emphasis);
        draft.leaf(sequence, b"*");
        draft.enter(text);
    }
    texts(draft);
    for _ in 0..size {
        draft.exit(text);
        draft.leaf(sequence, b"*");
        draft.exit(Name::Emphasis);
    }
    draft.exit(Name::Paragraph);
}

fn nested_lists(draft: &mut Draft<'_>, size: usize) {
    for _ in 0..size {
        draft.enter(Name::ListUnordered);
        draft.enter(Name::ListItem);
        item_prefix(draft);
    }
    words(draft);
    for _ in 0..size {
        draft.exit(Name::ListItem);
        draft.exit(Name::ListUnordered);
    }
}

/// Links and images by turns, each in the label of the one around it.
fn media(draft: &mut Draft<'_>, size: usize) {
    draft.enter(Name::Paragraph);
    for level in 0..size {
        if level < size / 2 {
            draft.enter(Name::Link);
            open_label(draft);
        } else {
            draft.enter(Name::Image);
            open_image_label(draft);
        }
    }
    texts(draft);
    for level in 0..size {
        close_label(draft);
        open_resource(draft);
        draft.put(b"u/");
        draft.number(level);
        close_destination(draft);
        close_resource(draft);
        if level < size.saturating_sub(size / 2) {
            draft.exit(Name::Image);
        } else {
            draft.exit(Name::Link);
        }
    }
    draft.exit(Name::Paragraph);
}

/// One item with definitions alone.
fn definitions(draft: &mut Draft<'_>, size: usize) {
    words(draft);
    draft.blank_line();
    draft.enter(Name::ListUnordered);
    draft.enter(Name::ListItem);
    item_prefix(draft);
    definition(draft, 0);
    for number in 1..size {
        draft.line_ending();
        draft.leaf(Name::SpaceOrTab, b"  ");
        definition(draft, number);
    }
    draft.exit(Name::ListItem);
    draft.exit(Name::ListUnordered);
}

/// One footnote that is called again and again.
fn calls(draft: &mut Draft<'_>, size: usize) {
    draft.enter(Name::Paragraph);
    texts(draft);
    for _ in 0..size {
        call(draft, 7);
    }
    draft.exit(Name::Paragraph);
    draft.blank_line();
    draft.enter(Name::GfmFootnoteDefinition);
    note_prefix(draft, 7);
    words(draft);
    draft.exit(Name::GfmFootnoteDefinition);
}

/// Links with long destinations, most of whose bytes must be encoded.
fn addresses(draft: &mut Draft<'_>, size: usize) {
    draft.enter(Name::Paragraph);
    for _ in 0..size {
        draft.enter(Name::Link);
        open_label(draft);
        draft.data(b"", 20, b"");
        close_label(draft);
        open_resource(draft);
        address(draft);
        close_destination(draft);
        close_resource(draft);
        draft.exit(Name::Link);
        draft.line_ending();
    }
    draft.data(b"", 30, b"");
    draft.exit(Name::Paragraph);
}

/// A long destination.
fn address(draft: &mut Draft<'_>) {
    draft.put(b"https://example.org/?q=");
    for _ in 0..10 {
        let line = draft.random.pick(draft.lines.prose);
        draft.put(line);
        draft.put(b"&\"|{}^%20%zz");
    }
}

/// Paragraphs of special characters alone.
fn specials(draft: &mut Draft<'_>, size: usize) {
    words(draft);
    draft.blank_line();
    draft.enter(Name::Paragraph);
    for _ in 0..size / 2_000 {
        draft.enter(Name::Data);
        for _ in 0..2_000 {
            let start = draft.random.below(8);
            let marks = b"&<\"<&&\"<\"\"&<&<\"&&<<&".get(start..);
            draft.put(marks.unwrap_or(b"&"));
        }
        draft.exit(Name::Data);
        draft.line_ending();
    }
    draft.data(b"", 30, b"");
    draft.exit(Name::Paragraph);
}

/// A list of many items, which is broken at its last event.
fn broken_list(draft: &mut Draft<'_>, size: usize) {
    draft.enter(Name::ListUnordered);
    for number in 0..size {
        if number > 0 {
            draft.exit(Name::ListItem);
            draft.line_ending();
        }
        draft.enter(Name::ListItem);
        item_prefix(draft);
        draft.enter(Name::Paragraph);
        draft.data(b"", 12, b"");
        draft.exit(Name::Paragraph);
    }
    draft.exit(Name::ListItem);
    draft.exit(Name::ListOrdered);
}

/// Paragraphs of thousands of short texts.
fn short_texts(draft: &mut Draft<'_>, size: usize) {
    for _ in 0..size / 5_000 {
        draft.enter(Name::Paragraph);
        draft.data(b"", 20, b"");
        for _ in 0..1_000 {
            draft.leaf(Name::Data, b"a");
            escape(draft);
            draft.leaf(Name::Data, b"< ");
            reference(draft);
            draft.leaf(Name::Data, b"\"");
        }
        draft.exit(Name::Paragraph);
        draft.blank_line();
    }
    words(draft);
}
