//! Events in order.

ghost use Rattle.std.specs.Prelude.{◌≡◌, ◌≤◌, ◌<◌, ◌++◌, ◌∷◌, [], OnOk, IsTrue, true, false};
ghost use Rattle.std.specs.Prelude.{option_map, vec_len};
ghost use Rattle.std.specs.Vec.{vec_capacity};
ghost use Rattle.md_base.specs.declared.event.Name.TheVariants.{Data};
ghost use Rattle.md_base.specs.Reference.{name_table};
ghost use Rattle.md_base.specs.Tree.{entering, exiting};
ghost use Rattle.md_measure.specs.Measured.{IsMeasured};
ghost use Rattle.md_references.specs.Names.{are_html};
ghost use Rattle.md_writer.specs.Written.{point_at};

use crate::added::Added;
use md_base::{Event, Kind, Name, Point};
use md_lines::Span;
use md_measure::Measure;
use md_references::UsedNames;
use std::alloc::{AllocError, Global};

/// The resolution of a URL.
#[derive(Clone, Copy, Debug, PartialEq, Eq)]
pub enum Url {
    /// It hasn't been resolved yet.
    Unread,
    /// It stays as it is.
    Own,
    /// Its resolved text was appended to the document.
    Added(Span),
}

/// Writes the events of a document, in order, and stores what belongs to them. Indices are byte
/// indices into the document followed by the appended bytes. Only the index and the columns of a
/// tab are set in each point.
#[derive(Drop)]
pub struct Writer<'a> {
    /// The events so far.
    pub events: Vec<Event>,
    /// Their measure.
    pub measure: Measure,
    /// What was appended to the document.
    pub added: Added<'a>,
    /// Whether a line feed follows it.
    pub has_ending: bool,
    /// The length of the document in bytes.
    length: usize,
    names: UsedNames,
    /// For each definition whether something refers to it by its label.
    are_referred: Vec<bool>,
    /// For each definition the resolution of its URL.
    urls: Vec<Url>,
    pub ghost measured: { IsMeasured measure events.items },
}

impl<'a> Writer<'a> {
    /// A writer without events, for a document of `length` bytes with this base.
    pub fn new(alloc: Global, length: usize, base: Option<&'a str>) -> Writer<'a>
        ensures events { result.events.items ≡ [] }
        ensures base { result.added.base ≡ option_map (λ base. base.now) base.entry }
        ensures added { result.added.bytes ≡ [] }
        ensures ending { result.has_ending ≡ false }
    {
        Writer {
            events: Vec::new(alloc),
            measure: Measure::new(),
            added: Added::new(alloc, base),
            has_ending: false,
            length,
            names: UsedNames::new(alloc),
            are_referred: Vec::new(alloc),
            urls: Vec::new(alloc),
        }
    }

    /// The index of the next byte that is appended to the document.
    pub fn end(&self) -> usize {
        self.length.saturating_add(self.added.len())
    }

    /// Appends a line feed after all other bytes; returns its range.
    pub fn add_ending(&mut self) -> Span
        ensures events { self.new.events.items ≡ self.old.events.items }
        ensures ending { self.new.has_ending ≡ true }
    {
        self.has_ending = true;
        let start = self.end();
        Span::new(start, start.saturating_add(1))
    }

    /// The resolution of the URL of the definition with an index.
    pub fn url_of(&self, index: usize) -> Url {
        self.urls.get(index).copied().unwrap_or(Url::Unread)
    }

    /// Stores the resolution of the URL of the definition with an index.
    ///
    /// # Errors
    ///
    /// Returns an error only if memory runs out.
    pub fn note_url(&mut self, index: usize, url: Url) -> Result<(), AllocError> {
        if self.urls.len() <= index {
            self.urls.resize(index.saturating_add(1), Url::Unread)?;
        }
        if let Some(noted) = self.urls.get_mut(index) {
            *noted = url;
        }
        Ok(())
    }

    /// Reserves capacity for `count` more events.
    ///
    /// # Errors
    ///
    /// Returns an error only if memory runs out.
    pub fn reserve(&mut self, count: usize) -> Result<(), AllocError>
        ensures { self.new.events.items ≡ self.old.events.items }
    {
        self.events.reserve(count)
    }

    /// The names of the character references so far, each once, with its text.
    pub fn names(&self) -> &[(&'static str, &'static str)]
        ensures html { IsTrue (are_html (name_table result.now)) }
    {
        self.names.as_slice()
    }

    /// Records that a character reference has this name.
    ///
    /// # Errors
    ///
    /// Returns an error only if memory runs out.
    pub fn use_name(&mut self, name: &[u8]) -> Result<(), AllocError> {
        self.names.add(name)
    }

    /// Records that something refers to the definition with an index by its label.
    ///
    /// # Errors
    ///
    /// Returns an error only if memory runs out.
    pub fn refer_to(&mut self, index: usize) -> Result<(), AllocError> {
        if self.are_referred.len() <= index {
            self.are_referred.resize(index.saturating_add(1), false)?;
        }
        if let Some(is_referred) = self.are_referred.get_mut(index) {
            *is_referred = true;
        }
        Ok(())
    }

    /// Whether something refers to the definition with an index by its label.
    pub fn is_referred(&self, index: usize) -> bool {
        self.are_referred.get(index).copied().unwrap_or(false)
    }

    /// Enters a node.
    ///
    /// # Errors
    ///
    /// Returns an error only if memory runs out.
    #[inline(always)]
    pub fn enter(&mut self, name: Name, at: usize) -> Result<(), AllocError>
        ensures { OnOk result (self.new.events.items
            ≡ self.old.events.items ++ entering name (point_at at 0) ∷ []) }
    {
        self.put(Kind::Enter, name, at, 0)
    }

    /// Exits a node.
    ///
    /// # Errors
    ///
    /// Returns an error only if memory runs out.
    #[inline(always)]
    pub fn exit(&mut self, name: Name, at: usize) -> Result<(), AllocError>
        ensures { OnOk result (self.new.events.items
            ≡ self.old.events.items ++ exiting name (point_at at 0) ∷ []) }
    {
        self.put(Kind::Exit, name, at, 0)
    }

    /// Enters and exits a node.
    ///
    /// # Errors
    ///
    /// Returns an error only if memory runs out.
    #[inline(always)]
    pub fn leaf(&mut self, name: Name, start: usize, end: usize) -> Result<(), AllocError>
        ensures { OnOk result (self.new.events.items ≡ self.old.events.items
            ++ entering name (point_at start 0) ∷ exiting name (point_at end 0) ∷ []) }
    {
        self.enter(name, start)?;
        self.exit(name, end)
    }

    /// Writes a text unchanged, if it isn't empty.
    ///
    /// # Errors
    ///
    /// Returns an error only if memory runs out.
    #[inline(always)]
    pub fn data(&mut self, start: usize, end: usize) -> Result<(), AllocError>
        ensures some { start < end → OnOk result (self.new.events.items ≡ self.old.events.items
            ++ entering Data (point_at start 0) ∷ exiting Data (point_at end 0) ∷ []) }
        ensures none { end ≤ start → OnOk result
            (self.new.events.items ≡ self.old.events.items) }
    {
        if start < end {
            self.leaf(Name::Data, start, end)?;
        }
        Ok(())
    }

    /// Enters and exits a node that begins `columns` columns after the beginning of a tab.
    ///
    /// # Errors
    ///
    /// Returns an error only if memory runs out.
    pub fn leaf_in_tab(
        &mut self,
        name: Name,
        start: usize,
        columns: u8,
        end: usize,
    ) -> Result<(), AllocError>
        ensures { OnOk result (self.new.events.items ≡ self.old.events.items
            ++ entering name (point_at start columns) ∷ exiting name (point_at end 0) ∷ []) }
    {
        self.put(Kind::Enter, name, start, columns as usize)?;
        self.exit(name, end)
    }

    #[inline(always)]
    fn put(&mut self, kind: Kind, name: Name, index: usize, vs: usize) -> Result<(), AllocError>
        ensures { OnOk result (self.new.events.items ≡ self.old.events.items
            ++ record { kind = kind; name = name; point = point_at index vs } ∷ []) }
    {
        let point = Point {
            line: 1,
            column: 1,
            index,
            vs,
        };
        let event = Event { kind, name, point };
        make_room(&mut self.events)?;
        self.measure.note(&event);
        self.events.push_reserved(event);
        Ok(())
    }
}

/// Reserves capacity for one more event. Usually there is some, and no call is made.
#[inline(always)]
fn make_room(events: &mut Vec<Event>) -> Result<(), AllocError>
    ensures events { events.new.items ≡ events.old.items }
    ensures room { OnOk result (vec_len events.new < vec_capacity events.new) }
{
    if events.len() == events.capacity() {
        events.reserve(1)?;
    }
    Ok(())
}
