//! Checks a list of events against the grammar.

ghost use Rattle.std.specs.Prelude.{◌≡◌, [], true, false, length, map, IfOk, OnOk, IfErr};
ghost use Rattle.md_pattern.specs.Ending.{first_index};
ghost use Rattle.md_base.specs.Reference.{name_table};
ghost use Rattle.md_tree.specs.Grammar.{handed, input_of, IsChecked};
ghost use Rattle.md_tree.specs.Refusal.{IsOrder, IsMdx, IsOfNode, IsLost, IsOutside, IsRefusal};
ghost use Rattle.md_tree.specs.Numbers.{AreNumbered};
ghost use Rattle.md_pattern.specs.Steps.{is_complete};
ghost use Rattle.md_pattern.specs.Places.{state_of};
ghost use Rattle.md_tree.specs.Machine.{Runs, beginning};
ghost use Rattle.md_tree.specs.Walk.{course_of, Unbroken};
ghost use Rattle.md_pattern.specs.Facts.{facts_at, tables_at, definitions_at};

use crate::checked::Checked;
use crate::input::Input;
use crate::reader::Reader;
use crate::resolve::resolve;
use crate::rule::{CompileError, Rule};
use crate::texts::Texts;
use crate::walk::Walk;
use md_base::{Event, References};
use md_pattern::Facts;
use std::alloc::Global;

/// Checks that events are the flattening of a document of the grammar over the document's bytes and
/// the names of character references, each with its text.
///
/// # Errors
///
/// `CompileError::Memory` if memory runs out, and `CompileError::Event` only if the events aren't
/// the flattening of such a document, with an event and the rule that it breaks.
///
/// # Examples
///
/// ```
/// let start = Point { line: 1, column: 1, index: 0, vs: 0 };
/// let end = Point { line: 1, column: 4, index: 3, vs: 0 };
/// let events = [
///     Event { kind: Kind::Enter, name: Name::ThematicBreak, point: start },
///     Event { kind: Kind::Exit, name: Name::ThematicBreak, point: end },
/// ];
/// let checked = check(alloc, &events, b"***", &[])?;
/// assert_eq!(checked.partner(0), Some(1));
///
/// // A node that is never exited.
/// let refused = check(alloc, &events[..1], b"***", &[]);
/// // Err(CompileError::Event { index: 1, rule: Rule::Order })
/// ```
pub fn check<'a>(
    alloc: Global,
    events: &'a [Event],
    bytes: &'a [u8],
    names: &'a [(&'a str, &'a str)],
) -> Result<Checked<'a>, CompileError>
    ensures ok { IfOk result (λ checked. checked ≡ handed events.now bytes.now names.now) }
    ensures grammatical { OnOk result (IsChecked (handed events.now bytes.now names.now)) }

    ensures outside { IfErr result (IsOutside (handed events.now bytes.now names.now)) }
    ensures order { IfErr result (IsOrder (handed events.now bytes.now names.now)) }
    ensures mdx { IfErr result (IsMdx (handed events.now bytes.now names.now)) }
    ensures of_node { IfErr result (IsOfNode (handed events.now bytes.now names.now)) }
    ensures lost { IfErr result (IsLost (handed events.now bytes.now names.now)) }
{
    let found = find(alloc, events, bytes, names)?;
    Ok(Checked::new(events, found.texts, found.names, found.facts))
}

/// The facts about a document of the grammar.
#[derive(Drop)]
struct Found<'a> {
    texts: Texts<'a>,
    names: References<'a>,
    facts: Facts,
}

/// Finds the facts about the document and its events, which match the grammar.
fn find<'a>(
    alloc: Global,
    events: &[Event],
    bytes: &'a [u8],
    names: &'a [(&'a str, &'a str)],
) -> Result<Found<'a>, CompileError>
    ensures grammatical { OnOk result (IsChecked (handed events.now bytes.now names.now)) }
    ensures texts { IfOk result (λ found. found.texts ≡ bytes.now) }
    ensures names { IfOk result (λ found. found.names ≡ name_table names.now) }
    ensures facts { IfOk result
        (λ found. AreNumbered (handed events.now bytes.now names.now) found.facts.facts) }
    ensures tables { IfOk result
        (λ found. map (λ t. t.items) found.facts.tables.items ≡ tables_at events.now) }
    ensures definitions { IfOk result
        (λ found. found.facts.definitions.items ≡ definitions_at events.now) }
    ensures first_ending { IfOk result
        (λ found. found.facts.first_ending ≡ first_index events.now) }
    ensures visits { IfOk result (λ found. found.facts.visits ≡ length events.now) }
    ensures refused { IfErr result (IsRefusal (handed events.now bytes.now names.now)) }
{
    let texts = Texts::new(alloc, bytes)?;
    let references = References::new(alloc, names)?;
    let input = Input {
        alloc,
        events,
        bytes: &texts,
        names: &references,
    };
    let read = read_events(input)?;
    if !is_done(&read.walk) {
        return Err(CompileError::Event {
            index: events.len(),
            rule: Rule::Order,
        });
    }
    let Read { walk, mut found } = read;
    // Identifiers may be long, and each is read once from a text. Dropping the list of other texts
    // frees memory for them.
    let texts = texts.with_front_alone(alloc);
    resolve(alloc, &texts, &walk.mentions, &mut found.facts)?;
    Ok(Found {
        texts,
        names: references,
        facts: found,
    })
}

/// The state after reading events.
#[derive(Drop)]
struct Read {
    walk: Walk,
    found: Facts,
}

/// Reads all events, each by the walk and by the pass that finds or infers facts.
fn read_events(input: Input) -> Result<Read, CompileError>
    ensures walked { IfOk result
        (λ read. Runs (Unbroken input.entry.bytes.now input.entry.names.now)
        input.entry.events.now beginning
        (course_of input.entry.events.now (length input.entry.events.now) read.walk)) }
    ensures facts { IfOk result (λ read. read.found.facts ≡ facts_at input.entry.events.now) }
    ensures tables { IfOk result (λ read. map (λ t. t.items) read.found.tables.items
        ≡ tables_at input.entry.events.now) }
    ensures definitions { IfOk result
        (λ read. read.found.definitions.items ≡ definitions_at input.entry.events.now) }
    ensures first_ending { IfOk result
        (λ read. read.found.first_ending ≡ first_index input.entry.events.now) }
    ensures visits { IfOk result (λ read. read.found.visits ≡ length input.entry.events.now) }
    ensures refused { IfErr result
        (IsRefusal (input_of input.entry.events.now input.entry.bytes.now input.entry.names.now)) }
{
    let mut reader = Reader::new(input)?;
    let mut visits = 0;
    // Each iteration visits an event, or an entry and its own exit.
    while let Some(event) = input.events.get(visits) {
        visits += reader.advance(input, visits, *event)?;
    }
    let Reader {
        walk,
        pass,
        first_ending,
    } = reader;
    let found = pass.into_facts(first_ending, visits);
    Ok(Read { walk, found })
}

/// Whether all nodes have ended, and the document's spine may end.
fn is_done(walk: &Walk) -> bool
    ensures done { result ≡ true → (walk.now.open_nodes.items ≡ [])
        × (is_complete (state_of walk.now.place walk.now.before) ≡ true) }
    ensures undone { result ≡ false → walk.now.open_nodes.items ≡ []
        → is_complete (state_of walk.now.place walk.now.before) ≡ false }
{
    walk.open_nodes.is_empty() && walk.place.may_end()
}
