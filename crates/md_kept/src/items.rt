//! The parts of a document that matter to its tags.

use crate::own::Own;
use md_clean::Tag;
use std::alloc::AllocError;

/// What a piece of HTML is.
#[derive(Clone, Copy, PartialEq, Eq)]
pub(crate) enum Part {
    /// A text, with its references as they are written.
    Text,
    /// A start tag that may be kept.
    Start,
    /// An end tag that may be kept.
    End,
    /// A void tag that may be kept.
    Void,
    /// A tag that isn't kept, or the raw text after one.
    Other,
    /// A comment or a declaration.
    Comment,
}

/// A tag of a table's body that is written before another tag.
#[derive(Clone, Copy, PartialEq, Eq)]
pub(crate) enum Implied {
    Nothing,
    Start,
    End,
}

/// A piece of HTML.
#[derive(Clone, Copy)]
pub(crate) struct Token {
    pub(crate) part: Part,
    /// Where it begins in the HTML of the document.
    pub(crate) start: usize,
    /// Where it ends there.
    pub(crate) end: usize,
    pub(crate) tag: Tag,
    /// The index of the item that is the other tag of its element.
    pub(crate) partner: Option<usize>,
    pub(crate) is_kept: bool,
    pub(crate) implied: Implied,
}

/// A part of a document that matters to its tags.
#[derive(Clone, Copy)]
pub(crate) enum Item {
    /// A node of the document begins.
    Enter(Own),
    /// It ends.
    Exit,
    /// A node of HTML begins.
    Html,
    /// A piece of HTML, by its index among these.
    Token(usize),
}

/// The parts of a document that matter to its tags, in order.
#[derive(Drop)]
pub(crate) struct Items {
    /// The HTML of the document, each node's after the other.
    pub(crate) html: String,
    pub(crate) list: Vec<Item>,
    /// The pieces of this HTML.
    pub(crate) tokens: Vec<Token>,
}

impl Items {
    /// The token that is an item.
    pub(crate) fn token(&self, index: usize) -> Option<Token> {
        match self.list.get(index) {
            Some(Item::Token(at)) => self.tokens.get(*at).copied(),
            _ => None,
        }
    }

    /// Appends a token.
    pub(crate) fn push(&mut self, token: Token) -> Result<(), AllocError> {
        self.list.push(Item::Token(self.tokens.len()))?;
        self.tokens.push(token)?;
        Ok(())
    }

    /// Replaces the token that is an item.
    pub(crate) fn set(&mut self, index: usize, token: Token) {
        if let Some(Item::Token(at)) = self.list.get(index) {
            if let Some(place) = self.tokens.get_mut(*at) {
                *place = token;
            }
        }
    }

    /// The text of a token.
    pub(crate) fn text(&self, token: &Token) -> &str {
        self.html.get(token.start..token.end).unwrap_or("")
    }

    /// Keeps both tags of an element, or neither. `index` is that of one of them.
    pub(crate) fn keep(&mut self, index: usize, is_kept: bool) {
        let Some(token) = self.token(index) else {
            return;
        };
        self.set(index, Token { is_kept, ..token });
        let Some(partner) = token.partner else {
            return;
        };
        if let Some(other) = self.token(partner) {
            self.set(partner, Token { is_kept, ..other });
        }
    }
}
