//! The footnotes so far, each with its identifier.

ghost use Rattle.std.specs.Prelude.{◌≡◌, [], OnOk, string_bytes, slice_get};
ghost use Rattle.std.specs.Option.{option_map_or};
ghost use Rattle.md_steps.specs.Steps.{noted};
ghost use Rattle.md_footnotes.specs.Words as words;

use crate::places::{Places, place_under, put_last};
use std::alloc::{AllocError, Global};
use std::collections::BTreeMap;
use std::marker::Model;

/// The text of the first footnote with each identifier.
#[derive(Drop)]
pub(crate) struct Notes {
    texts: Vec<(String, String)>,
    places: Places,
}

impl Model for Notes {
    ghost use Rattle.std.specs.Prelude.{List};
    ghost use Rattle.md_meaning.specs.Meaning.At.{Footnote};
    ghost use Rattle.md_footnotes.specs.Entries.{footnotes_in, FindsPlaces};

    ghost Value = { List Footnote };

    ghost view = { λ f. footnotes_in f.texts.items };

    ghost invariant = { λ f. FindsPlaces f.places f.texts.items };
}

/// The text at an index.
fn noted_text(texts: &[(String, String)], place: usize) -> &str
    ensures { result.now ≡ option_map_or (λ e. string_bytes e.1) (slice_get texts.now place) [] }
{
    match texts.get(place) {
        Some((_, text)) => text.as_str(),
        None => "",
    }
}

impl Notes {
    /// No footnotes.
    pub(crate) fn new(alloc: Global) -> Notes
        ensures { result ≡ [] }
    {
        Notes {
            texts: Vec::new(alloc),
            places: BTreeMap::new(alloc),
        }
    }

    /// Adds a footnote, unless there is one with its identifier.
    ///
    /// # Errors
    ///
    /// Returns an error only if memory runs out.
    pub(crate) fn note(&mut self, identifier: String, text: String) -> Result<(), AllocError>
        ensures { OnOk result
            (self.new ≡ noted self.old
            (record { identifier = string_bytes identifier; text = string_bytes text })) }
    {
        match place_under(&self.places, identifier.as_str()) {
            Some(_) => Ok(()),
            None => put_last(&mut self.texts, &mut self.places, identifier, text),
        }
    }

    /// Returns the text of the footnote with an identifier; empty if there is none.
    pub(crate) fn text_of(&self, identifier: &str) -> &str
        ensures { result.now ≡ words.text_of self.now identifier.now }
    {
        match place_under(&self.places, identifier) {
            Some(place) => noted_text(self.texts.as_slice(), place),
            None => "",
        }
    }
}
