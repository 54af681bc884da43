//! The functions for C.

ghost use Rattle.std.specs.Prelude.{◌≡◌};
ghost use Rattle.md_script.specs.Run.{IsTextOf};
ghost use Rattle.md_script.specs.Script.{IsReadable, IsFirstUnreadable};
ghost use Rattle.md_abi.specs.Numbers.{refused, no_event, no_name, no_option, no_line};
ghost use Rattle.md_abi.specs.Numbers.{unsafe_options, no_attribute};
ghost use Rattle.md_abi.specs.Numbers.{too_long, too_much, too_deep, nested};
ghost use Rattle.md_abi.specs.Standing.{IsFirstWithout};
ghost use Rattle.md_abi.specs.Events.{event_of};
ghost use Rattle.md_abi.specs.References.{reference_of};
ghost use Rattle.md_abi.specs.Options.{StandsForNone, KeepsImages};
ghost use Rattle.md_abi.specs.Attributes.{StandsForNoAttribute};
ghost use Rattle.md_abi.specs.Attributed.{IsAttributedText};
ghost use Rattle.md_abi.specs.Rendered.{IsRendered, IsRefusedBy, IsRefusedIn};
ghost use Rattle.md_abi.specs.Within.{IsRenderedWithin, IsTooLong, IsTooMuch, IsBounded, IsShallow};
ghost use Rattle.md_abi.specs.Within.{NestsTooDeep};
ghost use Rattle.md_abi.specs.Unnested.{IsUnnestedText, IsNestedIn, IsOfUnnested};
ghost use Rattle.md_abi.specs.Links.{TellsOfLinks};
ghost use Rattle.md_abi.specs.Buffer.{HandsOver};
ghost use Rattle.md_abi.specs.Answers.{IsOfCompile, IsOfAttributed, IsOfRun};
ghost use Rattle.md_abi.specs.Answers.{IsOfWithin, TellsOfEvents, TellsPastDepth};
ghost use Rattle.md_markdown_abi.specs.Text.{IsMarkdownText};
ghost use Rattle.md_markdown_abi.specs.Front.{TellsOfFrontMatter};
ghost use Rattle.md_markdown_abi.specs.Answers.{TellsOfMarkdown, IsOfMarkdown};

use md_abi::{
    Answer, CAttributes, CDocument, CEvent, CLimits, COptions, CReference, Failure, answer_to,
    answer_to_links, answer_to_refusal, answer_to_unnested, answer_to_within, compile_attributed,
    compile_given, compile_given_unnested, compile_given_within, hand_over, hand_over_listed,
};
use md_markdown_abi::{
    CMarkdownOptions, answer_to_front_matter, answer_to_markdown, markdown_given,
};
use md_script::run;
use std::alloc::Global;

/// The version of the C interface: the layouts of structs, and every number.
const VERSION: u32 = 3;

/// Compiles a list of events over a document's bytes to HTML, and writes it to a buffer.
///
/// Its six parameters are those of the call in C, which has nine in the same order: none for
/// `alloc`, one for `options`, and two for each of the four slices.
///
/// A C caller passes nothing for `alloc`, and for each slice a pointer, which isn't null, and a
/// length.
///
/// # Statuses
///
/// - 0: the text is in the buffer's first `length` bytes; the rest of the buffer is unchanged.
/// - 1: the buffer is too short. It is unchanged, and `length` is the length of the text: call
///   again with at least that much.
/// - 2: the event at `index`, or the end if that is the number of events, breaks the rule with the
///   number `rule`.
/// - 3: the event at `index` isn't valid: no kind or no name has its number.
/// - 4: the named character reference at `index` isn't UTF-8.
/// - 5: the option with the number `index` isn't valid.
/// - 7: memory ran out.
///
/// With all statuses except 0 the buffer is unchanged. If several of 2 to 5 are true, it isn't
/// specified which is reported.
#[unsafe(no_mangle)]
pub extern "C" fn bivdrazo_compile(
    alloc: Global,
    events: &[CEvent],
    bytes: &[u8],
    options: &COptions,
    names: &[CReference],
    buffer: &mut [u8],
) -> Answer
    // The text is the meaning of the input, and safe if the options are.
    ensures text { HandsOver (IsRendered events.now bytes.now options.now names.now)
        buffer.old buffer.new result }
    ensures refused { result.status ≡ refused →
        IsRefusedBy events.now bytes.now names.now result.index result.rule }
    ensures no_event { result.status ≡ no_event → IsFirstWithout event_of events.now result.index }
    ensures no_name { result.status ≡ no_name → IsFirstWithout reference_of names.now result.index }
    ensures no_option { result.status ≡ no_option → StandsForNone options.now result.index }
    ensures fields { IsOfCompile result }
{
    let given = CDocument {
        events,
        bytes,
        options,
        names,
    };
    match compile_given(alloc, given) {
        Ok(text) => hand_over(text.as_str(), buffer),
        Err(failure) => answer_to(&failure),
    }
}

/// Compiles a list of events over a document's bytes, with safe options, to HTML with attributes
/// added to its tags, and writes to a buffer the HTML, and after it the headings that got an `id`.
///
/// If `rel` is set, each start tag `a` whose `href` isn't empty and doesn't begin with `#`, and
/// which has no `rel`, gets one with this text, escaped. If `heading_ids` is set, each start tag
/// from `h1` to `h6` without an `id` gets one: this text, escaped, and the heading's number,
/// from 1. Then each of these headings follows the text: a NUL, its level, a space, its number, a
/// space, and its text without tags, escaped.
///
/// If no two ids of the text are equal, and none begins with the prefix for headings, no two ids of
/// the result are equal.
///
/// Its seven parameters are those of the call in C, which has ten in the same order: none for
/// `alloc`, one each for `options` and `attributes`, and two for each of the four slices.
/// [`bivdrazo_compile`] describes the arguments of a C caller.
///
/// # Statuses
///
/// - 0: the text is in the buffer's first `index` bytes, and the headings in those from there to
///   `length`; the rest of the buffer is unchanged.
/// - 1: the buffer is too short. It is unchanged, `length` is the length of both, and `index` that
///   of the text: call again with at least `length`.
/// - 2 to 5, 7: as for [`bivdrazo_compile`].
/// - 8: the options aren't safe.
/// - 9: the attribute with the number `index` isn't valid: `rel` has 0, `heading_ids` 1.
///
/// With all statuses except 0 the buffer is unchanged. If several of 2 to 5, 8 and 9 are true, it
/// isn't specified which is reported.
#[unsafe(no_mangle)]
pub extern "C" fn bivdrazo_compile_attributed(
    alloc: Global,
    events: &[CEvent],
    bytes: &[u8],
    options: &COptions,
    names: &[CReference],
    attributes: &CAttributes,
    buffer: &mut [u8],
) -> Answer
    // The text is safe, and is the meaning of the input with these attributes; the list of headings
    // follows.
    ensures text { HandsOver (IsAttributedText events.now bytes.now options.now names.now
        attributes.now result.index)
        buffer.old buffer.new result }
    ensures refused { result.status ≡ refused →
        IsRefusedBy events.now bytes.now names.now result.index result.rule }
    ensures no_event { result.status ≡ no_event → IsFirstWithout event_of events.now result.index }
    ensures no_name { result.status ≡ no_name → IsFirstWithout reference_of names.now result.index }
    ensures no_option { result.status ≡ no_option → StandsForNone options.now result.index }
    ensures unsafe_options { result.status ≡ unsafe_options → KeepsImages options.now → ⊥ }
    ensures no_attribute { result.status ≡ no_attribute
        → StandsForNoAttribute attributes.now result.index }
    ensures fields { IsOfAttributed result }
{
    let given = CDocument {
        events,
        bytes,
        options,
        names,
    };
    match compile_attributed(alloc, given, attributes) {
        Ok(made) => hand_over_listed(made.whole.as_str(), made.start, buffer),
        Err(refusal) => answer_to_refusal(&refusal),
    }
}

/// Compiles a list of events over a document's bytes, with safe options, to HTML, if no link
/// contains a link, and writes it to a buffer: wherever flow content may be inserted, the HTML
/// Standard's tree construction builds the tree of its reading.
///
/// Its six parameters are those of the call in C, as [`bivdrazo_compile`] describes them.
///
/// # Statuses
///
/// - 0 to 5, 7: as for [`bivdrazo_compile`].
/// - 8: the options aren't safe.
/// - 12: a link contains a link, and neither is in an image. Calls of footnotes are links too, and
///   so are autolinks, except literal ones.
///
/// With all statuses except 0 the buffer is unchanged. If several of 2 to 5 and 8 are true, it
/// isn't specified which is reported. 12 is reported only if the events are those of a document.
#[unsafe(no_mangle)]
pub extern "C" fn bivdrazo_compile_unnested(
    alloc: Global,
    events: &[CEvent],
    bytes: &[u8],
    options: &COptions,
    names: &[CReference],
    buffer: &mut [u8],
) -> Answer
    // The text is safe, is the meaning of the input, and is built as it is read.
    ensures text { HandsOver
        (IsUnnestedText events.now bytes.now options.now names.now)
        buffer.old buffer.new result }
    ensures refused { result.status ≡ refused →
        IsRefusedBy events.now bytes.now names.now result.index result.rule }
    ensures no_event { result.status ≡ no_event → IsFirstWithout event_of events.now result.index }
    ensures no_name { result.status ≡ no_name → IsFirstWithout reference_of names.now result.index }
    ensures no_option { result.status ≡ no_option → StandsForNone options.now result.index }
    ensures unsafe_options { result.status ≡ unsafe_options → KeepsImages options.now → ⊥ }
    ensures nested { result.status ≡ nested → IsNestedIn events.now bytes.now names.now }
    ensures fields { IsOfUnnested result }
{
    let given = CDocument {
        events,
        bytes,
        options,
        names,
    };
    match compile_given_unnested(alloc, given) {
        Ok(html) => hand_over(html.as_str(), buffer),
        Err(failure) => answer_to_unnested(&failure),
    }
}

/// The same as [`bivdrazo_compile`], if the text has at most as many bytes as `limits` allow,
/// neither its work nor its reuse exceeds their limit, and the events nest no deeper than theirs.
/// The cost depends on these limits, though no clause says so. Printing stops soon after the text
/// is too long.
///
/// The work is counted from the events alone: what is read of the bytes, by the points of the
/// events; for each row of a table's body, five for each of its columns. The reuse is counted once
/// the events are known to be a document: for each link and image that refers to a definition, what
/// is read in that definition, and one for each of its events; for each footnote call, five times
/// its length, four times that of the prefix of ids, and that of the backreference's label.
///
/// Its seven parameters are those of the call in C, which has ten in the same order: none for
/// `alloc`, one each for `options` and `limits`, and two for each of the four slices.
/// [`bivdrazo_compile`] describes the arguments of a C caller.
///
/// # Statuses
///
/// - 0 to 5, 7: as for [`bivdrazo_compile`]. With 1, `length` doesn't exceed the limit on the text.
/// - 10: the text exceeds its limit.
/// - 11: the work exceeds its limit, whether or not the events are a document, or they are a
///   document whose reuse exceeds it.
/// - 13: the events nest deeper than their limit allows, whether or not they are a document; if the
///   limit is 0, this is never reported.
///
/// With all statuses except 0 the buffer is unchanged. If several of 3 to 5 are true, it isn't
/// specified which is reported. With 0, 1, 2, 10 and 11 the nesting doesn't exceed its limit; with
/// 0, 1, 2 and 10 the work doesn't either; with 0, 1 and 10 the reuse doesn't either.
#[unsafe(no_mangle)]
pub extern "C" fn bivdrazo_compile_within(
    alloc: Global,
    events: &[CEvent],
    bytes: &[u8],
    options: &COptions,
    names: &[CReference],
    limits: &CLimits,
    buffer: &mut [u8],
) -> Answer
    // The text is that of `bivdrazo_compile`, and within limits.
    ensures text { HandsOver
        (IsRenderedWithin events.now bytes.now options.now names.now limits.now)
        buffer.old buffer.new result }
    ensures refused { result.status ≡ refused →
        IsRefusedBy events.now bytes.now names.now result.index result.rule }
    ensures no_event { result.status ≡ no_event → IsFirstWithout event_of events.now result.index }
    ensures no_name { result.status ≡ no_name → IsFirstWithout reference_of names.now result.index }
    ensures no_option { result.status ≡ no_option → StandsForNone options.now result.index }
    ensures too_long { result.status ≡ too_long →
        IsTooLong events.now bytes.now options.now names.now limits.now }
    ensures too_much { result.status ≡ too_much →
        IsTooMuch events.now bytes.now options.now names.now limits.now }
    ensures too_deep { result.status ≡ too_deep → NestsTooDeep events.now limits.now }
    ensures bounded { TellsOfEvents result.status → IsBounded events.now limits.now }
    ensures shallow { TellsPastDepth result.status → IsShallow events.now limits.now }
    ensures fields { IsOfWithin result }
{
    let given = CDocument {
        events,
        bytes,
        options,
        names,
    };
    match compile_given_within(alloc, given, limits) {
        Ok(text) => hand_over(text.as_str(), buffer),
        Err(failure) => answer_to_within(&failure),
    }
}

/// Whether a link contains a link, and neither is in an image, in the document that the events
/// encode; it compiles nothing. Calls of footnotes are links too, and so are autolinks, except
/// literal ones.
///
/// A C caller passes nothing for `alloc`, and for the slice a pointer, which isn't null, and a
/// length.
///
/// # Statuses
///
/// - 0: no link contains a link.
/// - 12: a link contains a link.
/// - 3: the event at `index` isn't valid: no kind or no name has its number.
/// - 7: memory ran out.
///
/// For events that aren't those of a document, the answer is either 0 or 12.
#[unsafe(no_mangle)]
pub extern "C" fn bivdrazo_has_nested_link(alloc: Global, events: &[CEvent]) -> Answer
    ensures { TellsOfLinks events.now result }
{
    answer_to_links(alloc, events)
}

/// Compiles an event script to HTML, and writes it to a buffer.
///
/// A C caller passes nothing for `alloc`, and for each slice a pointer, which isn't
/// null, and a length.
///
/// # Statuses
///
/// - 0: the text is in the buffer's first `length` bytes; the rest of the buffer is unchanged.
/// - 1: the buffer is too short. It is unchanged, and `length` is the length of the text: call
///   again with at least that much.
/// - 2: the event at `index`, or the end if that is the number of events, breaks the rule with the
///   number `rule`.
/// - 6: the line with the number `index`, from 1, is the first invalid one.
/// - 7: memory ran out.
///
/// With all statuses except 0 the buffer is unchanged.
#[unsafe(no_mangle)]
pub extern "C" fn bivdrazo_run(alloc: Global, script: &[u8], buffer: &mut [u8]) -> Answer
    ensures text { HandsOver (IsTextOf script.now) buffer.old buffer.new result }
    ensures refused { result.status ≡ refused → IsRefusedIn script.now result.index result.rule }
    ensures unreadable { result.status ≡ no_line → ¬ IsReadable script.now }
    ensures no_line { result.status ≡ no_line → IsFirstUnreadable script.now result.index }
    ensures fields { IsOfRun result }
{
    match run(alloc, script) {
        Ok(text) => hand_over(text.as_str(), buffer),
        Err(error) => answer_to(&Failure::from(error)),
    }
}

/// Returns the version of the C interface.
#[unsafe(no_mangle)]
pub extern "C" fn bivdrazo_version() -> u32
    ensures { result ≡ 3 }
{
    VERSION
}

/// The version of the C interface for Markdown.
const MARKDOWN_VERSION: u32 = 4;

/// Compiles a Markdown document to HTML, with attributes added to its tags if the options request
/// them, and writes to a buffer the HTML, and after it the headings that got an `id`.
///
/// The attributes and the list of headings are those of [`bivdrazo_compile_attributed`], by the
/// options `rel` and `heading_ids`. If more nodes than `max_depth` would be open at once, the
/// document is shown as it is written; 0 is no such limit.
///
/// Its four parameters are those of the call in C, which has five in the same order: none for
/// `alloc`, one for `options`, and two for each of the slices. [`bivdrazo_compile`] describes the
/// arguments of a C caller.
///
/// # Statuses
///
/// - 0: the text is in the buffer's first `index` bytes, and the headings in those from there to
///   `length`; the rest of the buffer is unchanged.
/// - 1: the buffer is too short. It is unchanged, `length` is the length of both, and `index` that
///   of the text: call again with at least `length`.
/// - 35: the options have another version than 4.
/// - 5: the option with the number `index` isn't valid.
/// - 32: the document has `length` bytes, more than `max_input`.
/// - 34: the document isn't UTF-8 from the byte at `index`.
/// - 37: the work exceeds `max_work`.
/// - 33: the text is longer than `max_output`.
/// - 7: memory ran out.
///
/// Of 35, 5, 32 and 34 the first that is true is reported, and no other status if one of them is
/// true, unless 7 is reported.
#[unsafe(no_mangle)]
pub extern "C" fn bivdrazo_markdown_into(
    alloc: Global,
    text: &[u8],
    options: &CMarkdownOptions,
    buffer: &mut [u8],
) -> Answer
    // The text is made of the document, under the given options and with HTML's names of character
    // references, and it is safe, with these attributes; the list of headings follows.
    ensures text { HandsOver (IsMarkdownText text.now options.now result.index)
        buffer.old buffer.new result }
    ensures told { TellsOfMarkdown text.now options.now result }
    ensures fields { IsOfMarkdown result }
{
    match markdown_given(alloc, text, options) {
        Ok(made) => hand_over_listed(made.whole.as_str(), made.start, buffer),
        Err(failure) => answer_to_markdown(&failure),
    }
}

/// Finds the front matter of a Markdown document: the text between the two lines of `---` at its
/// beginning.
///
/// A C caller passes for the slice a pointer, which isn't null, and a length.
///
/// # Statuses
///
/// - 0: it is the `length` bytes from the byte at `index`; if there is none, both are 0.
/// - 34: the document isn't UTF-8 from the byte at `index`.
#[unsafe(no_mangle)]
pub extern "C" fn bivdrazo_front_matter(text: &[u8]) -> Answer
    ensures { TellsOfFrontMatter text.now result }
{
    answer_to_front_matter(text)
}

/// Returns the version of the C interface for Markdown.
#[unsafe(no_mangle)]
pub extern "C" fn bivdrazo_markdown_version() -> u32
    ensures { result ≡ 4 }
{
    MARKDOWN_VERSION
}
