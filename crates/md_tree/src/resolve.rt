//! Resolves the labels of links, images and footnote calls to definitions.

ghost use Rattle.std.specs.Prelude.{◌≡◌, suc, length, List, Option, ℕ, option_map, is_some};
ghost use Rattle.std.specs.Prelude.{string_bytes, IfOk, OnOk, IfErr};
ghost use Rattle.std.specs.List.{All};
ghost use Rattle.md_tree.specs.Mentions.{identifier_at, defined, footnoted, mentions_among};
ghost use Rattle.md_tree.specs.Mentions.{IsResolved};
ghost use Rattle.md_tree.specs.Resolve.{IsUnresolved};
ghost use Rattle.md_tree.specs.declared.mention.Mention.{Mention};
ghost use Rattle.md_tree.specs.Numbers as spec;

use crate::mention::{Mention, Mentioned};
use crate::rule::{CompileError, Rule};
use crate::texts::Texts;
use md_base::{Position, normalize_identifier};
use md_pattern::{Fact, FactList};
use std::alloc::{AllocError, Global};
use std::collections::{BTreeMap, BTreeSet};

/// The number of each identifier, counted from 1: which of the definitions is the first that has
/// it. The map is ordered, so that a look-up takes few steps, whatever identifiers an attacker
/// chooses.
type Numbers = BTreeMap<Option<String>, usize>;

/// The identifiers of the footnote definitions, ordered for the same reason.
type Identifiers = BTreeSet<Option<String>>;

/// The identifier at a label's position, if it is UTF-8.
fn identifier(alloc: Global, bytes: &Texts, label: Position) -> Result<Option<String>, AllocError>
    ensures { IfOk result (λ text. option_map string_bytes text ≡ identifier_at bytes.now label) }
{
    match bytes.label_at(&label) {
        None => Ok(None),
        Some(text) => Ok(Some(normalize_identifier(alloc, text)?)),
    }
}

/// Writes a number to the fact at an index, if there is one.
fn keep_number(facts: &mut FactList, index: usize, number: usize) -> Result<(), AllocError>
    ensures { OnOk result (facts.new ≡ spec.put_number index number facts.old) }
{
    if number > 0 {
        if let Some(fact) = facts.get(index) {
            facts.put(
                index,
                Fact {
                    read_at: number,
                    ..fact
                },
            )?;
        }
    }
    Ok(())
}

/// How many mentions are definitions.
fn definition_count(mentions: &[Mentioned]) -> usize
    ensures { (bytes : List ℕ) → result ≡ length (defined bytes (mentions_among mentions.now)) }
{
    let mut count = 0;
    for mentioned in mentions {
        if let Mention::Definition(_) = mentioned.mention {
            count += 1;
        }
    }
    count
}

/// The numbers of the definitions.
fn definitions(alloc: Global, bytes: &Texts, mentions: &[Mentioned]) -> Result<Numbers, AllocError>
    ensures { IfOk result
        (λ numbers. spec.Numbers numbers (defined bytes.now (mentions_among mentions.now))) }
{
    let mut numbers = BTreeMap::new(alloc);
    let mut number = definition_count(mentions);
    let mut rest = mentions;
    // Goes from the last to the first, so that of several definitions with one identifier the first
    // one's number remains.
    while let Some((mentioned, before)) = rest.split_last() {
        if let Mention::Definition(label) = mentioned.mention {
            let identifier = identifier(alloc, bytes, label)?;
            numbers.insert(identifier, number)?;
            number -= 1;
        }
        rest = before;
    }
    Ok(numbers)
}

/// The identifiers of the footnote definitions.
fn footnotes(
    alloc: Global,
    bytes: &Texts,
    mentions: &[Mentioned],
) -> Result<Identifiers, AllocError>
    ensures { IfOk result (λ identifiers. spec.Identifiers identifiers
        (footnoted bytes.now (mentions_among mentions.now))) }
{
    let mut identifiers = BTreeSet::new(alloc);
    for mentioned in mentions {
        if let Mention::FootnoteDefinition(label) = mentioned.mention {
            let identifier = identifier(alloc, bytes, label)?;
            identifiers.insert(identifier)?;
        }
    }
    Ok(identifiers)
}

/// The number of the identifier at a label's position, if it has one.
fn number_of_label(
    alloc: Global,
    bytes: &Texts,
    label: Position,
    numbers: &Numbers,
) -> Result<Option<usize>, AllocError>
    ensures { IfOk result (λ number. (all : List (Option (List ℕ))) → spec.Numbers numbers.now all →
        number ≡ option_map (λ place. suc place) (spec.which all (identifier_at bytes.now label))) }
{
    let wanted = identifier(alloc, bytes, label)?;
    Ok(numbers.get(&wanted).copied())
}

/// Whether a footnote definition has the identifier at a label's position.
fn is_footnote(
    alloc: Global,
    bytes: &Texts,
    label: Position,
    footnotes: &Identifiers,
) -> Result<bool, AllocError>
    ensures { IfOk result (λ known. (all : List (Option (List ℕ)))
        → spec.Identifiers footnotes.now all
        → known ≡ is_some (spec.which all (identifier_at bytes.now label))) }
{
    let wanted = identifier(alloc, bytes, label)?;
    Ok(footnotes.contains(&wanted))
}

/// The number of the definition that a mention refers to, 0 if it refers to none, or the rule that
/// it breaks.
fn referred_number(
    alloc: Global,
    bytes: &Texts,
    mention: Mention,
    definitions: &Numbers,
    footnotes: &Identifiers,
) -> Result<Result<usize, Rule>, AllocError>
    ensures { IfOk result (λ referred. (mentions : List Mention)
        → spec.Numbers definitions.now (defined bytes.now mentions)
        → spec.Identifiers footnotes.now (footnoted bytes.now mentions)
        → spec.RefersTo bytes.now mentions mention referred) }
{
    match mention {
        Mention::Reference(label) => {
            let number = number_of_label(alloc, bytes, label, definitions)?;
            Ok(number.ok_or(Rule::Definition))
        }
        Mention::Call(label) => {
            let is_known = is_footnote(alloc, bytes, label, footnotes)?;
            Ok(if is_known { Ok(0) } else { Err(Rule::Footnote) })
        }
        _ => Ok(Ok(0)),
    }
}

/// Resolves references. Definitions are numbered from 1, each by the first one with its identifier.
/// The fact at the exit of a link or an image stores the number of its definition. Refuses a
/// reference to a missing definition or footnote definition.
///
/// # Errors
///
/// `CompileError::Memory` if memory runs out, and `CompileError::Event` with the index at which an
/// unresolved node exits: with `Rule::Definition` for a link or an image, and with `Rule::Footnote`
/// for a footnote call.
pub fn resolve(
    alloc: Global,
    bytes: &Texts,
    mentions: &[Mentioned],
    facts: &mut FactList,
) -> Result<(), CompileError>
    ensures ok { OnOk result
        (All (IsResolved bytes.now (mentions_among mentions.now)) (mentions_among mentions.now)) }
    ensures numbered { OnOk result (facts.new
        ≡ spec.numbered (spec.number_for bytes.now (mentions_among mentions.now)) mentions.now
        facts.old) }
    ensures refused { IfErr result (IsUnresolved bytes.now mentions.now) }
{
    let definitions = definitions(alloc, bytes, mentions)?;
    let footnotes = footnotes(alloc, bytes, mentions)?;
    for mentioned in mentions {
        let index = mentioned.index;
        match referred_number(alloc, bytes, mentioned.mention, &definitions, &footnotes)? {
            Ok(number) => keep_number(facts, index, number)?,
            Err(rule) => return Err(CompileError::Event { index, rule }),
        }
    }
    Ok(())
}
