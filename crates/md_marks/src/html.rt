//! Inline HTML.

use crate::leaf::Leaf;
use md_lines::{Place, read_tag};

/// The ends of HTML that a leaf is known not to have after some place.
#[derive(Clone, Copy, Debug, PartialEq, Eq)]
pub struct Endings {
    lacks_comment: bool,
    lacks_instruction: bool,
    lacks_declaration: bool,
    lacks_data: bool,
}

/// The beginning of HTML other than a tag.
#[derive(Clone, Copy, Debug, PartialEq, Eq)]
enum Opening {
    Comment,
    Instruction,
    Declaration,
    Data,
}

impl Opening {
    /// The text that ends it.
    fn ending(self) -> &'static [u8] {
        match self {
            Opening::Comment => b"-->",
            Opening::Instruction => b"?>",
            Opening::Declaration => b">",
            Opening::Data => b"]]>",
        }
    }

    /// Its length.
    fn length(self) -> usize {
        match self {
            Opening::Comment => 4,
            Opening::Instruction | Opening::Declaration => 2,
            Opening::Data => 9,
        }
    }
}

impl Endings {
    /// Nothing is known yet.
    pub fn new() -> Endings {
        Endings {
            lacks_comment: false,
            lacks_instruction: false,
            lacks_declaration: false,
            lacks_data: false,
        }
    }

    /// Returns the end of the HTML that begins at a place, at a `<`. Calls must move forward in the
    /// leaf.
    #[inline(always)]
    pub fn find(&mut self, leaf: &Leaf, place: Place) -> Option<Place> {
        let rest = leaf.rest(place);
        if matches!(rest.get(1), Some(b'!' | b'?')) {
            self.find_other(leaf, place)
        } else {
            read_tag(leaf.bytes, leaf.lines, place)
        }
    }

    /// The same if it isn't a tag.
    #[inline(never)]
    fn find_other(&mut self, leaf: &Leaf, place: Place) -> Option<Place> {
        let rest = leaf.rest(place);
        // A comment may end right where it begins.
        if rest.starts_with(b"<!-->") {
            return Some(moved(place, 5));
        }
        if rest.starts_with(b"<!--->") {
            return Some(moved(place, 6));
        }
        let opening = opening_of(rest)?;
        if self.lacks(opening) {
            return None;
        }
        let found = find_ending(leaf, moved(place, opening.length()), opening.ending());
        if found.is_none() {
            self.note(opening);
        }
        found
    }

    fn lacks(&self, opening: Opening) -> bool {
        match opening {
            Opening::Comment => self.lacks_comment,
            Opening::Instruction => self.lacks_instruction,
            Opening::Declaration => self.lacks_declaration,
            Opening::Data => self.lacks_data,
        }
    }

    fn note(&mut self, opening: Opening) {
        match opening {
            Opening::Comment => self.lacks_comment = true,
            Opening::Instruction => self.lacks_instruction = true,
            Opening::Declaration => self.lacks_declaration = true,
            Opening::Data => self.lacks_data = true,
        }
    }
}

/// The place `count` bytes later.
fn moved(place: Place, count: usize) -> Place {
    Place {
        line: place.line,
        at: place.at.saturating_add(count),
    }
}

/// The opening at the beginning of a text.
fn opening_of(text: &[u8]) -> Option<Opening> {
    if text.starts_with(b"<!--") {
        Some(Opening::Comment)
    } else if text.starts_with(b"<?") {
        Some(Opening::Instruction)
    } else if text.starts_with(b"<![CDATA[") {
        Some(Opening::Data)
    } else if text.starts_with(b"<!") && text.get(2)?.is_ascii_alphabetic() {
        Some(Opening::Declaration)
    } else {
        None
    }
}

/// The end of the first such ending, at a place or later.
fn find_ending(leaf: &Leaf, place: Place, ending: &[u8]) -> Option<Place> {
    let mut from = place.at;
    for line in place.line..leaf.lines.len() {
        let rest = leaf.rest(Place { line, at: from });
        for (index, _) in rest.iter().enumerate() {
            let is_ending = match rest.get(index..) {
                Some(text) => text.starts_with(ending),
                None => false,
            };
            if is_ending {
                let at = from.saturating_add(index).saturating_add(ending.len());
                return Some(Place { line, at });
            }
        }
        from = leaf.start(line.saturating_add(1));
    }
    None
}
