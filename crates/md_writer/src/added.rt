//! What is appended to a document.

ghost use Rattle.std.specs.Prelude.{◌≡◌, ◌++◌, [], true, option_map, IfOk};
ghost use Rattle.md_writer.specs.Added.{AreAdded, is_changed, piece_of};

use md_urls::Base;
use std::alloc::{AllocError, Global};
use std::marker::Model;

/// What is appended to a document: URLs that were resolved against its base, each after the other.
/// Without a base there are none.
#[derive(Drop)]
pub struct Added<'a> {
    base: Option<Base<'a>>,
    bytes: Vec<u8>,
}

impl<'a> Model for Added<'a> {
    ghost use Rattle.std.specs.Prelude.{option_map};
    ghost use Rattle.md_writer.specs.Added.{Addition, AreAdded};

    ghost Value = { Addition };

    ghost view = { λ added. record {
      base = option_map (λ base. base.url.now) added.base;
      bytes = added.bytes.items;
    } };

    ghost invariant = { λ added.
        AreAdded (option_map (λ base. base.url.now) added.base) added.bytes.items };
}

impl<'a> Added<'a> {
    /// Nothing yet, for a document with this base.
    pub fn new(alloc: Global, base: Option<&'a str>) -> Added<'a>
        ensures base { result.base ≡ option_map (λ base. base.now) base.entry }
        ensures bytes { result.bytes ≡ [] }
    {
        Added {
            base: match base {
                Some(url) => Some(Base::new(url)),
                None => None,
            },
            bytes: Vec::new(alloc),
        }
    }

    /// The base.
    pub fn base(&self) -> Option<&'a str>
        ensures { option_map (λ base. base.now) result ≡ self.now.base }
    {
        match &self.base {
            Some(base) => Some(base.url),
            None => None,
        }
    }

    /// The bytes.
    pub fn as_slice(&self) -> &[u8]
        ensures value { result.now ≡ self.now.bytes }
        ensures pieces { AreAdded self.now.base result.now }
    {
        self.bytes.as_slice()
    }

    /// How many bytes there are.
    pub fn len(&self) -> usize {
        self.bytes.len()
    }

    /// Whether there are none.
    pub fn is_empty(&self) -> bool
        ensures { result ≡ true → self.now.bytes ≡ [] }
    {
        self.bytes.is_empty()
    }

    /// Appends a URL, resolved against the base; returns whether it changed. Nothing is appended if
    /// it stays as it is.
    ///
    /// # Errors
    ///
    /// Returns an error only if memory runs out; then there are no bytes any more.
    pub fn push_resolved(&mut self, alloc: Global, url: &[u8]) -> Result<bool, AllocError>
        ensures base { self.new.base ≡ self.old.base }
        ensures changed { IfOk result (λ is_other. is_other ≡ is_changed self.old.base url.now) }
        ensures bytes { IfOk result (λ _. self.new.bytes
            ≡ self.old.bytes ++ piece_of self.old.base url.now) }
    {
        let Some(base) = &self.base else {
            return Ok(false);
        };
        let resolved = base.push_resolved(alloc, url, &mut self.bytes);
        if resolved.is_err() {
            self.bytes.clear();
        }
        resolved
    }
}
