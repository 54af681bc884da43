//! What stands in a line: texts, emphasis, code, links, images and the like.

use crate::draft::Draft;
use crate::texts::piece;
use md_html::Name;

/// Names of a parser that this compiler passes over.
pub const MARKER: Name = Name::Other(43);

const AUTOLINK: Name = Name::Other(1);

const AUTOLINK_MARKER: Name = Name::Other(2);

const ESCAPE: Name = Name::Other(4);

const ESCAPE_MARKER: Name = Name::Other(5);

const REFERENCE: Name = Name::Other(6);

const REFERENCE_END: Name = Name::Other(7);

const CODE_SEQUENCE: Name = Name::Other(9);

const EMPHASIS_SEQUENCE: Name = Name::Other(19);

const EMPHASIS_TEXT: Name = Name::Other(20);

const CALL_LABEL: Name = Name::Other(24);

const CALL_MARKER: Name = Name::Other(25);

const STRIKETHROUGH_SEQUENCE: Name = Name::Other(29);

const STRIKETHROUGH_TEXT: Name = Name::Other(30);

const LABEL_END: Name = Name::Other(39);

const IMAGE_LABEL: Name = Name::Other(40);

const IMAGE_MARKER: Name = Name::Other(41);

const LINK_LABEL: Name = Name::Other(42);

const LINK_REFERENCE: Name = Name::Other(46);

const LINK_REFERENCE_MARKER: Name = Name::Other(47);

const DESTINATION: Name = Name::Other(48);

const DESTINATION_RAW: Name = Name::Other(51);

const RESOURCE_MARKER: Name = Name::Other(52);

const TITLE: Name = Name::Other(53);

const TITLE_MARKER: Name = Name::Other(54);

const STRONG_SEQUENCE: Name = Name::Other(55);

const STRONG_TEXT: Name = Name::Other(56);

/// A line of 40 to 90 bytes, with a span or two in about one of so many lines.
pub fn line(draft: &mut Draft<'_>, plain: usize) {
    if !draft.random.once_in(plain) {
        draft.data(b"", 90, b"");
        return;
    }
    draft.data(b"", 36, b" ");
    span(draft);
    if draft.random.once_in(2) {
        draft.data(b" ", 24, b" ");
        span(draft);
    }
    draft.data(b" ", 40, b"");
}

/// A span of any kind.
pub fn span(draft: &mut Draft<'_>) {
    match draft.random.below(32) {
        0..=4 => emphasis(draft),
        5..=9 => strong(draft),
        10..=15 => code(draft),
        16..=19 => link(draft),
        20..=23 => defined_link(draft),
        24 => strikethrough(draft),
        25..=26 => escape(draft),
        27 => reference(draft),
        28 => numeric_reference(draft),
        29 => autolink(draft),
        30 => literal(draft),
        _ => seldom(draft),
    }
}

/// A call of a footnote, HTML or an image, where the document has such.
fn seldom(draft: &mut Draft<'_>) {
    if draft.notes > 0 && draft.random.once_in(2) {
        let number = draft.random.below(draft.notes);
        call(draft, number);
    } else if draft.has_html {
        html(draft);
    } else {
        image(draft);
    }
}

pub fn emphasis(draft: &mut Draft<'_>) {
    draft.enter(Name::Emphasis);
    draft.leaf(EMPHASIS_SEQUENCE, b"*");
    draft.enter(EMPHASIS_TEXT);
    draft.data(b"", 20, b"");
    draft.exit(EMPHASIS_TEXT);
    draft.leaf(EMPHASIS_SEQUENCE, b"*");
    draft.exit(Name::Emphasis);
}

pub fn strong(draft: &mut Draft<'_>) {
    draft.enter(Name::Strong);
    draft.leaf(STRONG_SEQUENCE, b"**");
    draft.enter(STRONG_TEXT);
    draft.data(b"", 16, b"");
    draft.exit(STRONG_TEXT);
    draft.leaf(STRONG_SEQUENCE, b"**");
    draft.exit(Name::Strong);
}

fn strikethrough(draft: &mut Draft<'_>) {
    draft.enter(Name::GfmStrikethrough);
    draft.leaf(STRIKETHROUGH_SEQUENCE, b"~~");
    draft.enter(STRIKETHROUGH_TEXT);
    draft.data(b"", 16, b"");
    draft.exit(STRIKETHROUGH_TEXT);
    draft.leaf(STRIKETHROUGH_SEQUENCE, b"~~");
    draft.exit(Name::GfmStrikethrough);
}

/// Code of a few words.
pub fn code(draft: &mut Draft<'_>) {
    draft.enter(Name::CodeText);
    draft.leaf(CODE_SEQUENCE, b"`");
    draft.enter(Name::CodeTextData);
    let line = draft.random.pick(draft.lines.code);
    draft.put(piece(line, 0, 18));
    draft.put(b"()");
    draft.exit(Name::CodeTextData);
    draft.leaf(CODE_SEQUENCE, b"`");
    draft.exit(Name::CodeText);
}

/// The label of a link: its brackets, and some words between them.
fn label(draft: &mut Draft<'_>) {
    open_label(draft);
    draft.data(b"", 24, b"");
    close_label(draft);
}

/// A link's label starts.
pub fn open_label(draft: &mut Draft<'_>) {
    draft.enter(Name::Label);
    draft.enter(LINK_LABEL);
    draft.leaf(MARKER, b"[");
    draft.exit(LINK_LABEL);
    draft.enter(Name::LabelText);
}

/// A link's or an image's label ends.
pub fn close_label(draft: &mut Draft<'_>) {
    draft.exit(Name::LabelText);
    draft.enter(LABEL_END);
    draft.leaf(MARKER, b"]");
    draft.exit(LABEL_END);
    draft.exit(Name::Label);
}

/// An image's label starts.
pub fn open_image_label(draft: &mut Draft<'_>) {
    draft.enter(Name::Label);
    draft.enter(IMAGE_LABEL);
    draft.leaf(IMAGE_MARKER, b"!");
    draft.leaf(MARKER, b"[");
    draft.exit(IMAGE_LABEL);
    draft.enter(Name::LabelText);
}

/// A resource starts, up to the text of its destination.
pub fn open_resource(draft: &mut Draft<'_>) {
    draft.enter(Name::Resource);
    draft.leaf(RESOURCE_MARKER, b"(");
    draft.enter(DESTINATION);
    draft.enter(DESTINATION_RAW);
    draft.enter(Name::ResourceDestinationString);
    draft.enter(Name::Data);
}

/// The destination of a resource ends.
pub fn close_destination(draft: &mut Draft<'_>) {
    draft.exit(Name::Data);
    draft.exit(Name::ResourceDestinationString);
    draft.exit(DESTINATION_RAW);
    draft.exit(DESTINATION);
}

/// A resource ends.
pub fn close_resource(draft: &mut Draft<'_>) {
    draft.leaf(RESOURCE_MARKER, b")");
    draft.exit(Name::Resource);
}

/// The title of a resource.
fn title(draft: &mut Draft<'_>) {
    draft.leaf(Name::SpaceOrTab, b" ");
    draft.enter(TITLE);
    draft.leaf(TITLE_MARKER, b"\"");
    draft.enter(Name::ResourceTitleString);
    draft.data(b"", 30, b"");
    draft.exit(Name::ResourceTitleString);
    draft.leaf(TITLE_MARKER, b"\"");
    draft.exit(TITLE);
}

/// The text of an address: of this site, of another one, or one with a part that must be encoded.
pub fn address(draft: &mut Draft<'_>) {
    match draft.random.below(4) {
        0 => draft.put(b"../guide/part-"),
        1 => draft.put(b"/search?q=one+two&page="),
        2 => draft.put(b"https://www.example.org/caf\xc3\xa9/"),
        _ => draft.put(b"https://docs.example.com/reference/v2/page_"),
    }
    let number = draft.random.below(10_000);
    draft.number(number);
    if draft.random.once_in(3) {
        draft.put(b".html#section-two");
    }
}

/// A link by resource, with a title now and then.
pub fn link(draft: &mut Draft<'_>) {
    draft.enter(Name::Link);
    label(draft);
    resource(draft);
    draft.exit(Name::Link);
}

fn resource(draft: &mut Draft<'_>) {
    open_resource(draft);
    address(draft);
    close_destination(draft);
    if draft.random.once_in(4) {
        title(draft);
    }
    close_resource(draft);
}

pub fn image(draft: &mut Draft<'_>) {
    draft.enter(Name::Image);
    open_image_label(draft);
    draft.data(b"", 30, b"");
    close_label(draft);
    resource(draft);
    draft.exit(Name::Image);
}

/// The name by which the definition with this number is known: a title, and from its second use on a number. Whether
/// its first letter is small makes no difference.
pub fn name(draft: &mut Draft<'_>, number: usize, is_small: bool) {
    let titles = draft.lines.titles;
    let count = titles.len().max(1);
    let text = titles.get(number % count).copied().unwrap_or(b"Title");
    match text.split_first() {
        Some((first, others)) if is_small => {
            draft.put(&[first.to_ascii_lowercase()]);
            draft.put(others);
        }
        _ => draft.put(text),
    }
    if number >= count {
        draft.put(b" ");
        draft.number(number / count);
    }
}

/// A link by reference, if the document has definitions; else one by resource.
fn defined_link(draft: &mut Draft<'_>) {
    if draft.links == 0 {
        return link(draft);
    }
    let number = draft.random.below(draft.links);
    link_to(draft, number);
}

/// A link to the definition with this number, by a reference of its own or by its label.
pub fn link_to(draft: &mut Draft<'_>, number: usize) {
    draft.enter(Name::Link);
    let is_small = draft.random.once_in(3);
    if draft.random.once_in(3) {
        label(draft);
        link_reference(draft, number, is_small);
    } else {
        open_label(draft);
        draft.enter(Name::Data);
        name(draft, number, is_small);
        draft.exit(Name::Data);
        close_label(draft);
    }
    draft.exit(Name::Link);
}

fn link_reference(draft: &mut Draft<'_>, number: usize, is_small: bool) {
    draft.enter(LINK_REFERENCE);
    draft.leaf(LINK_REFERENCE_MARKER, b"[");
    draft.enter(Name::ReferenceString);
    draft.enter(Name::Data);
    name(draft, number, is_small);
    draft.exit(Name::Data);
    draft.exit(Name::ReferenceString);
    draft.leaf(LINK_REFERENCE_MARKER, b"]");
    draft.exit(LINK_REFERENCE);
}

/// A call of the footnote with this number.
pub fn call(draft: &mut Draft<'_>, number: usize) {
    draft.enter(Name::GfmFootnoteCall);
    draft.enter(Name::Label);
    draft.enter(CALL_LABEL);
    draft.leaf(MARKER, b"[");
    draft.leaf(CALL_MARKER, b"^");
    draft.exit(CALL_LABEL);
    draft.enter(Name::LabelText);
    draft.enter(Name::Data);
    draft.put(b"note-");
    draft.number(number);
    draft.exit(Name::Data);
    close_label(draft);
    draft.exit(Name::GfmFootnoteCall);
}

/// A character that is escaped.
pub fn escape(draft: &mut Draft<'_>) {
    let index = draft.random.below(8);
    draft.enter(ESCAPE);
    draft.leaf(ESCAPE_MARKER, b"\\");
    let character = b"*_[]<&`#".get(index).copied().unwrap_or(b'*');
    draft.leaf(Name::CharacterEscapeValue, &[character]);
    draft.exit(ESCAPE);
}

/// A character reference by name.
pub fn reference(draft: &mut Draft<'_>) {
    draft.enter(REFERENCE);
    draft.leaf(Name::CharacterReferenceMarker, b"&");
    let is_common = draft.has_common_names || draft.random.once_in(2);
    match (draft.random.below(3), is_common) {
        (0, true) => draft.leaf(Name::CharacterReferenceValue, b"amp"),
        (1, true) => draft.leaf(Name::CharacterReferenceValue, b"quot"),
        (0, false) => draft.leaf(Name::CharacterReferenceValue, b"copy"),
        (1, false) => draft.leaf(Name::CharacterReferenceValue, b"nbsp"),
        (_, false) => draft.leaf(Name::CharacterReferenceValue, b"hellip"),
        _ => draft.leaf(Name::CharacterReferenceValue, b"lt"),
    }
    draft.leaf(REFERENCE_END, b";");
    draft.exit(REFERENCE);
}

/// A character reference by number.
fn numeric_reference(draft: &mut Draft<'_>) {
    let number = draft.random.between(8200, 9000);
    draft.enter(REFERENCE);
    draft.leaf(Name::CharacterReferenceMarker, b"&");
    draft.leaf(Name::CharacterReferenceMarkerNumeric, b"#");
    draft.enter(Name::CharacterReferenceValue);
    draft.number(number);
    draft.exit(Name::CharacterReferenceValue);
    draft.leaf(REFERENCE_END, b";");
    draft.exit(REFERENCE);
}

/// An address between angle brackets.
fn autolink(draft: &mut Draft<'_>) {
    draft.enter(AUTOLINK);
    draft.leaf(AUTOLINK_MARKER, b"<");
    if draft.random.once_in(2) {
        draft.leaf(Name::AutolinkEmail, b"list.owner@example.org");
    } else {
        draft.enter(Name::AutolinkProtocol);
        draft.put(b"http://example.com/~user?id=");
        let number = draft.random.below(100_000);
        draft.number(number);
        draft.exit(Name::AutolinkProtocol);
    }
    draft.leaf(AUTOLINK_MARKER, b">");
    draft.exit(AUTOLINK);
}

/// An address in the text.
fn literal(draft: &mut Draft<'_>) {
    if draft.random.once_in(2) {
        draft.leaf(Name::GfmAutolinkLiteralWww, b"www.example.org/a_(b)");
    } else {
        draft.enter(Name::GfmAutolinkLiteralProtocol);
        draft.put(b"https://issues.example.net/browse?a=b&id=");
        let number = draft.random.below(100_000);
        draft.number(number);
        draft.exit(Name::GfmAutolinkLiteralProtocol);
    }
}

/// HTML around some words.
fn html(draft: &mut Draft<'_>) {
    draft.enter(Name::HtmlText);
    draft.leaf(Name::HtmlTextData, b"<kbd class=\"key\">");
    draft.exit(Name::HtmlText);
    draft.data(b"", 12, b"");
    draft.enter(Name::HtmlText);
    draft.leaf(Name::HtmlTextData, b"</kbd>");
    draft.exit(Name::HtmlText);
}
