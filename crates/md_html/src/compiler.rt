//! Compiles events to HTML.

ghost use Rattle.std.specs.Prelude.{◌≡◌, ◌≤◌, OnOk, IfOk, IfErr, false, string_bytes};
ghost use Rattle.std.specs.Prelude.{length, ◌*◌};
ghost use Rattle.md_base.specs.Reference.{name_table};
ghost use Rattle.md_base.specs.Tree.{Forest, flatten};
ghost use Rattle.md_tree.specs.Grammar.{IsChecked, handed};
ghost use Rattle.md_tree.specs.Refusal.{IsOutside, IsOrder, IsMdx, IsOfNode, IsLost, IsRefusal};
ghost use Rattle.md_meaning.specs.Meaning.{meaning};
ghost use Rattle.md_text.specs.Html.{any_attribute, HasOneReadingWith, IsPrinted};
ghost use Rattle.md_text.specs.Safe.{is_safe_link, is_safe_image};
ghost use Rattle.md_text.specs.Ids.{HasDistinctIds};
ghost use Rattle.md_safe.specs.SafeTokens.{has_safe_links, has_safe_images};
ghost use Rattle.md_safe.specs.Tokenized.{HasTokensWith, IsTokenizedAsRead};
ghost use Rattle.md_safe.specs.Contents.{IsContained};
ghost use Rattle.md_safe.specs.Links.{has_nested_link};
ghost use Rattle.md_safe.specs.Built.{IsBuiltAsRead};
ghost use Rattle.md_safe.specs.Options.{KeepsGrammar, KeepsLinks, KeepsImages, KeepsIds};
ghost use Rattle.md_html.specs.Promises.{Promises};

use crate::rendering::render;
use md_base::Event;
use md_text::CompileOptions;
use md_tree::{Checked, CompileError, check};
use std::alloc::{AllocError, Global};

/// A text, and how many events were visited for it.
#[derive(Drop)]
pub struct Counted {
    /// The text.
    pub text: String,
    /// The number of visits of events: two for each event, one by the check and one for the text.
    pub visits: usize,
}

/// Compiles a list of Markdown events over a document's bytes to HTML: the meaning of the document
/// that the list flattens.
///
/// `names` is the table of named character references. Nothing is assumed about events, bytes,
/// options or names. If HTML isn't allowed and the heading of the footnotes is the usual one, the
/// text has exactly one reading in the HTML grammar. If dangerous protocols aren't allowed either,
/// each link in it has no protocol or a permitted one; if any image source isn't allowed either, so
/// has each image. The default options are such. If footnote ids are by number and the text has one
/// reading, no two ids in it are equal, with any prefix and any protocols. The same holds in the
/// web's own terms: the HTML Standard's tokenizer emits for a text with one reading the tokens of
/// that reading, and by the URL Standard a link, or an image, has no scheme of its own or a
/// permitted one. That reading fulfils the content model: an item is in a list, a row in a table,
/// and no block in a paragraph. If no link of the document contains a link, the Standard's tree
/// construction builds for the text, inserted into a `div` or a cell, the reading's own tree.
///
/// # Errors
///
/// Reports an event if the list isn't the flattening of a document of the event grammar over these
/// bytes and names, as [`check`] does; or that memory ran out. If several rules are broken, it
/// isn't specified which is reported.
///
/// # Examples
///
/// ```
/// let start = Point { line: 1, column: 1, index: 0, vs: 0 };
/// let end = Point { line: 1, column: 4, index: 3, vs: 0 };
/// let events = [
///     Event { kind: Kind::Enter, name: Name::ThematicBreak, point: start },
///     Event { kind: Kind::Exit, name: Name::ThematicBreak, point: end },
/// ];
/// let html = compile(alloc, &events, b"***", &CompileOptions::default(), &[])?;
/// assert_eq!(html.as_str(), "<hr />");
/// ```
pub fn compile(
    alloc: Global,
    events: &[Event],
    bytes: &[u8],
    options: &CompileOptions,
    names: &[(&str, &str)],
) -> Result<String, CompileError>
    ensures grammatical { OnOk result (IsChecked (handed events.now bytes.now names.now)) }
    ensures meaning { IfOk result (λ text. (document : Forest) → flatten document ≡ events.now →
        string_bytes text ≡ meaning options.now (name_table names.now) bytes.now document) }
    ensures one_reading { IfOk result (λ text. KeepsGrammar options.now
        → HasOneReadingWith any_attribute (string_bytes text)) }
    ensures printed { IfOk result
        (λ text. KeepsGrammar options.now → IsPrinted (string_bytes text)) }
    ensures safe_links { IfOk result (λ text. KeepsLinks options.now
        → HasOneReadingWith is_safe_link (string_bytes text)) }
    ensures safe_images { IfOk result (λ text. KeepsImages options.now
        → HasOneReadingWith is_safe_image (string_bytes text)) }
    ensures contained { IfOk result
        (λ text. KeepsGrammar options.now → IsContained (string_bytes text)) }
    ensures tree { IfOk result (λ text. (document : Forest) → flatten document ≡ events.now
        → has_nested_link false document ≡ false → KeepsGrammar options.now
        → IsBuiltAsRead (string_bytes text)) }
    ensures tokenized { IfOk result
        (λ text. KeepsGrammar options.now → IsTokenizedAsRead (string_bytes text)) }
    ensures safe_link_tokens { IfOk result (λ text. KeepsLinks options.now
        → HasTokensWith has_safe_links (string_bytes text)) }
    ensures safe_image_tokens { IfOk result (λ text. KeepsImages options.now
        → HasTokensWith has_safe_images (string_bytes text)) }
    ensures distinct_ids { IfOk result
        (λ text. KeepsIds options.now → HasDistinctIds (string_bytes text)) }

    ensures outside { IfErr result (IsOutside (handed events.now bytes.now names.now)) }
    ensures order { IfErr result (IsOrder (handed events.now bytes.now names.now)) }
    ensures mdx { IfErr result (IsMdx (handed events.now bytes.now names.now)) }
    ensures of_node { IfErr result (IsOfNode (handed events.now bytes.now names.now)) }
    ensures lost { IfErr result (IsLost (handed events.now bytes.now names.now)) }
{
    let counted = compile_counted(alloc, events, bytes, options, names)?;
    Ok(counted.text)
}

/// The same as [`compile`], with the number of visits of events for the text.
///
/// # Errors
///
/// The errors of [`compile`].
///
/// # Examples
///
/// ```
/// // No event, no visit.
/// let counted = compile_counted(alloc, &[], b"", &CompileOptions::default(), &[])?;
/// assert_eq!((counted.text.as_str(), counted.visits), ("", 0));
/// ```
pub fn compile_counted(
    alloc: Global,
    events: &[Event],
    bytes: &[u8],
    options: &CompileOptions,
    names: &[(&str, &str)],
) -> Result<Counted, CompileError>
    ensures promises { IfOk result (λ counted. Promises options.now
        (handed events.now bytes.now names.now) (string_bytes counted.text)) }
    ensures least { IfOk result (λ counted. 2 * length events.now ≤ counted.visits) }
    ensures most { IfOk result (λ counted. counted.visits ≤ 3 * length events.now) }
    ensures exact { IfOk result (λ counted. counted.visits ≡ 2 * length events.now) }

    ensures refused { IfErr result (IsRefusal (handed events.now bytes.now names.now)) }
{
    let checked = check(alloc, events, bytes, names)?;
    let counted = count_checked(alloc, &checked, options)?;
    Ok(counted)
}

/// Compiles events that have passed the check to HTML: the meaning of their document.
///
/// # Errors
///
/// `AllocError`, only if memory runs out.
///
/// # Examples
///
/// ```
/// let checked = check(alloc, &events, bytes, names)?;
/// let html = compile_checked(alloc, &checked, &CompileOptions::default())?;
/// ```
pub fn compile_checked(
    alloc: Global,
    checked: &Checked,
    options: &CompileOptions,
) -> Result<String, AllocError>
    ensures promises { IfOk result (λ text. Promises options.now checked.now (string_bytes text)) }
{
    let counted = count_checked(alloc, checked, options)?;
    Ok(counted.text)
}

/// Compiles events that have passed the check to HTML, and returns how many events were visited for
/// it, including the check.
fn count_checked(
    alloc: Global,
    checked: &Checked,
    options: &CompileOptions,
) -> Result<Counted, AllocError>
    ensures promises { IfOk result
        (λ counted. Promises options.now checked.now (string_bytes counted.text)) }
    ensures exact { IfOk result (λ counted. counted.visits ≡ 2 * length checked.now.events) }
{
    let text = render(alloc, checked, options)?;
    let events = checked.events();
    // Each event is visited once by the check, and once for its text.
    let visits = checked.visits() + events.len();
    Ok(Counted { text, visits })
}
