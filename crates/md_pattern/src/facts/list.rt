//! The facts at the events. An event whose fact is only the partner takes one word of four bytes.

ghost use Rattle.std.specs.Prelude.{◌≡◌, ◌+◌, ◌<◌, ◌^◌, true, OnOk, IfOk, ℕ, [], ◌∷◌};
ghost use Rattle.std.specs.Prelude.{◌++◌};
ghost use Rattle.std.specs.Prelude.{length, set, slice_get, ◌≤◌};
ghost use Rattle.std.specs.Vec.{vec_len, vec_capacity};
ghost use Rattle.md_pattern.specs.Facts as spec;
ghost use Rattle.md_pattern.specs.FactWords.{IsWord, fact_of_word};

use super::Fact;
use super::nodes::partner_alone;
use crate::summary::Looseness;
use std::alloc::{AllocError, Global};
use std::marker::Model;

/// A word from here on is the number of a record; a lower one is the index of an event.
const RECORDS: u32 = 0x8000_0000;

/// The maximum number of words: the indices of so many events are all lower than `RECORDS`.
const WORDS: usize = 0x8000_0000;

/// The fact at each event, in the order of the events.
#[derive(Drop)]
pub struct FactList {
    /// For each of the first events its partner, if that is its whole fact and lower than `WORDS`,
    /// or the number of its record. There is capacity for at most `WORDS`, and it doesn't grow.
    words: Vec<u32>,
    /// The facts that don't fit in a word: more than a partner, or a partner from `WORDS` on.
    records: Vec<Fact>,
    /// The facts at the events for which there is no capacity.
    rest: Vec<Fact>,
}

impl Model for FactList {
    ghost use Rattle.std.specs.Prelude.{List};
    ghost use Rattle.md_pattern.specs.declared.facts.Fact.{Fact};
    ghost use Rattle.std.specs.Vec.{vec_capacity};
    ghost use Rattle.md_pattern.specs.FactWords.{all_facts, AreParts};

    ghost Value = { List Fact };

    ghost view = { λ list. all_facts list.records.items list.words.items list.rest.items };

    ghost invariant = { λ list. AreParts list.records.items list.words.items
        (vec_capacity list.words) list.rest.items };
}

impl FactList {
    ghost use Rattle.std.specs.Prelude.{◌≡◌, ◌+◌, OnOk, IfOk, [], ◌∷◌, ◌++◌, length, set};
    ghost use Rattle.std.specs.Prelude.{slice_get};

    /// An empty list, with capacity for the words of `events` events, at most `WORDS`.
    ///
    /// # Errors
    ///
    /// `AllocError`, only if memory runs out.
    pub fn with_capacity(alloc: Global, events: usize) -> Result<FactList, AllocError>
        ensures { IfOk result (λ list. list ≡ []) }
    {
        Ok(FactList {
            words: Vec::with_capacity(alloc, events.min(WORDS))?,
            records: Vec::new(alloc),
            rest: Vec::new(alloc),
        })
    }

    /// The number of events.
    #[inline(always)]
    pub fn len(&self) -> usize
        ensures { result ≡ length self.now }
    {
        self.words.len() + self.rest.len()
    }

    /// The fact at the event with this index, if there is one.
    #[inline(always)]
    pub fn get(&self, index: usize) -> Option<Fact>
        ensures { result ≡ slice_get self.now index }
    {
        match self.words.get(index) {
            Some(word) => Some(fact_of_word(&self.records, *word)),
            None => self.rest.get(index - self.words.len()).copied(),
        }
    }

    /// Adds the fact at the entry of an open node; returns its index.
    ///
    /// # Errors
    ///
    /// `AllocError`, only if memory runs out.
    #[inline(always)]
    pub fn push_open(&mut self) -> Result<usize, AllocError>
        ensures entry { IfOk result (λ entry. entry ≡ length self.old) }
        ensures facts { OnOk result (self.new ≡ self.old ++ spec.partner_alone 0 ∷ []) }
    {
        let entry = self.words.len();
        if entry < self.words.capacity() {
            self.words.push_reserved(0);
            return Ok(entry);
        }
        let entry = self.len();
        self.push_rare(0)?;
        Ok(entry)
    }

    /// Adds the facts at an entry and at the exit right after it; returns the index of the entry.
    ///
    /// # Errors
    ///
    /// `AllocError`, only if memory runs out.
    #[inline(always)]
    pub fn push_leaf(&mut self) -> Result<usize, AllocError>
        ensures entry { IfOk result (λ entry. entry ≡ length self.old) }
        ensures facts { IfOk result
            (λ entry. self.new ≡ (self.old ++ spec.partner_alone (entry + 1) ∷ [])
            ++ spec.partner_alone entry ∷ []) }
    {
        if self.words.capacity() - self.words.len() >= 2 {
            return Ok(push_two(&mut self.words));
        }
        let entry = self.len();
        self.push_rare(entry + 1)?;
        self.push_rare(entry)?;
        Ok(entry)
    }

    /// Replaces the fact at the entry of a node that exits at the next event, if the entry exists,
    /// and adds the fact at that exit.
    ///
    /// # Errors
    ///
    /// `AllocError`, only if memory runs out.
    #[inline(always)]
    pub(super) fn close(
        &mut self,
        entry: usize,
        read_at: usize,
        looseness: Looseness,
    ) -> Result<(), AllocError>
        ensures { OnOk result (self.new ≡ set self.old entry
            (record (spec.partner_alone (length self.old)) {
              read_at = read_at;
              looseness = looseness;
            })
            ++ spec.partner_alone entry ∷ []) }
    {
        let exit = self.words.len();
        if exit < self.words.capacity() && entry < exit && is_plain(read_at, looseness) {
            close_words(&mut self.words, entry);
            return Ok(());
        }
        let partner = self.len();
        self.put(
            entry,
            Fact {
                partner,
                read_at,
                looseness,
            },
        )?;
        self.push(entry)
    }

    /// Adds a fact that is only a partner, at the next event.
    #[inline(always)]
    fn push(&mut self, partner: usize) -> Result<(), AllocError>
        ensures { OnOk result (self.new ≡ self.old ++ spec.partner_alone partner ∷ []) }
    {
        if self.words.len() < self.words.capacity() && partner < WORDS {
            self.words.push_reserved(partner as u32);
            return Ok(());
        }
        self.push_rare(partner)
    }

    /// The same, for a partner that may need a record, or after the words.
    #[inline(never)]
    fn push_rare(&mut self, partner: usize) -> Result<(), AllocError>
        ensures { OnOk result (self.new ≡ self.old ++ spec.partner_alone partner ∷ []) }
    {
        let fact = partner_alone(partner);
        if self.words.len() < self.words.capacity() {
            let word = word_for(&mut self.records, fact, self.words.capacity())?;
            self.words.push_reserved(word);
            return Ok(());
        }
        self.rest.push(fact)?;
        Ok(())
    }

    /// Replaces the fact at the event with this index, if there is one.
    ///
    /// # Errors
    ///
    /// `AllocError`, only if memory runs out.
    #[inline(always)]
    pub fn put(&mut self, index: usize, fact: Fact) -> Result<(), AllocError>
        ensures { OnOk result (self.new ≡ set self.old index fact) }
    {
        if index < self.words.len() {
            let word = word_for(&mut self.records, fact, self.words.capacity())?;
            put_word(&mut self.words, index, word);
        } else {
            put_fact(&mut self.rest, index - self.words.len(), fact);
        }
        Ok(())
    }
}

/// Whether nothing is known of a node but its partner.
#[inline(always)]
fn is_plain(read_at: usize, looseness: Looseness) -> bool
    ensures read { result ≡ true → read_at ≡ 0 }
    ensures loose { result ≡ true → looseness ≡ (spec.partner_alone 0).looseness }
{
    read_at == 0 && !looseness.without_items && !looseness.with_items && !looseness.of_item
}

/// Whether a fact is only a partner, and fits in a word.
#[inline(always)]
fn is_partner_alone(fact: &Fact) -> bool
    ensures alone { result ≡ true → fact.now ≡ spec.partner_alone fact.now.partner }
    ensures fits { result ≡ true → fact.now.partner < 2 ^ 31 }
{
    is_plain(fact.read_at, fact.looseness) && fact.partner < WORDS
}

/// Returns the word for a fact, and adds a record if it needs one. `events` is the number of events
/// for which there is capacity.
#[inline(always)]
fn word_for(records: &mut Vec<Fact>, fact: Fact, events: usize) -> Result<u32, AllocError>
    ensures word { IfOk result (λ word. IsWord records.new.items word) }
    ensures fact { IfOk result (λ word. fact_of_word records.new.items word ≡ fact) }
    ensures words { (word : ℕ) → IsWord records.old.items word → IsWord records.new.items word }
    ensures facts { (word : ℕ) → IsWord records.old.items word
        → fact_of_word records.new.items word ≡ fact_of_word records.old.items word }
{
    if is_partner_alone(&fact) {
        Ok(fact.partner as u32)
    } else {
        number_of_record(records, fact, events)
    }
}

/// Adds a record for a fact, and returns its word. The first record reserves capacity for an eighth
/// of the events, since growing step by step would copy the records repeatedly.
#[inline(always)]
fn number_of_record(records: &mut Vec<Fact>, fact: Fact, events: usize) -> Result<u32, AllocError>
    ensures word { IfOk result (λ word. IsWord records.new.items word) }
    ensures fact { IfOk result (λ word. fact_of_word records.new.items word ≡ fact) }
    ensures words { (word : ℕ) → IsWord records.old.items word → IsWord records.new.items word }
    ensures facts { (word : ℕ) → IsWord records.old.items word
        → fact_of_word records.new.items word ≡ fact_of_word records.old.items word }
{
    let number = records.len();
    // The callers add at most one record for each event among the words, so this isn't reached.
    if number >= WORDS {
        return Err(AllocError);
    }
    if number == records.capacity() {
        records.reserve(events / 8 + 1)?;
    }
    records.push_reserved(fact);
    Ok(RECORDS + number as u32)
}

/// The fact that a word encodes.
#[inline(always)]
fn fact_of_word(records: &[Fact], word: u32) -> Fact
    requires { IsWord records.now word }
    ensures { result ≡ fact_of_word records.now word }
{
    if word < RECORDS {
        partner_alone(word as usize)
    } else {
        records[(word - RECORDS) as usize]
    }
}

/// Adds the words of an entry and of the exit right after it; returns the index of the entry.
#[inline(always)]
fn push_two(words: &mut Vec<u32>) -> usize
    requires room { vec_len words.old + 2 ≤ vec_capacity words.old }
    requires fits { vec_capacity words.old ≤ 2 ^ 31 }
    ensures entry { result ≡ length words.old.items }
    ensures pushed { words.new.items ≡ (words.old.items ++ (result + 1) ∷ []) ++ result ∷ [] }
    ensures capacity { vec_capacity words.new ≡ vec_capacity words.old }
{
    let entry = words.len();
    let word = entry as u32;
    words.push_reserved(word + 1);
    words.push_reserved(word);
    entry
}

/// Writes the word of an entry whose exit is the next event, and adds the word of the exit.
#[inline(always)]
fn close_words(words: &mut Vec<u32>, entry: usize)
    requires exists { entry < length words.old.items }
    requires room { vec_len words.old < vec_capacity words.old }
    requires fits { vec_capacity words.old ≤ 2 ^ 31 }
    ensures closed { words.new.items
        ≡ set words.old.items entry (length words.old.items) ++ entry ∷ [] }
    ensures capacity { vec_capacity words.new ≡ vec_capacity words.old }
{
    let exit = words.len() as u32;
    words[entry] = exit;
    words.push_reserved(entry as u32);
}

/// Writes a word at an index, if it exists.
#[inline(always)]
fn put_word(words: &mut Vec<u32>, index: usize, word: u32)
    ensures written { words.new.items ≡ set words.old.items index word }
    ensures capacity { vec_capacity words.new ≡ vec_capacity words.old }
{
    if index < words.len() {
        words[index] = word;
    }
}

/// Writes a fact at an index, if it exists.
#[inline(never)]
fn put_fact(facts: &mut Vec<Fact>, index: usize, fact: Fact)
    ensures { facts.new.items ≡ set facts.old.items index fact }
{
    if index < facts.len() {
        facts[index] = fact;
    }
}
