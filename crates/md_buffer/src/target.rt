//! The stored target of a link or an image.

ghost use Rattle.std.specs.Prelude.{◌≡◌, [], Some, IfOk, OnOk, option_copied};
ghost use Rattle.md_buffer.specs.Texts.{first_or, others_of};
ghost use Rattle.md_steps.specs.Steps.{nowhere};

use crate::media::TargetRef;
use crate::output::Output;
use std::alloc::{AllocError, Global};
use std::marker::Model;

/// The target of a link or an image, and its title. The capacity of both texts is reused.
#[derive(Drop)]
pub struct Target {
    /// The destination, not yet sanitized; empty if there is none.
    destination: String,
    /// The title as it is printed, if there is one.
    title: String,
    /// Whether there is a title.
    has_title: bool,
}

impl Model for Target {
    ghost use Rattle.std.specs.Prelude.{string_bytes, if◌then◌else◌, Some, None};
    ghost use Rattle.md_meaning.specs.Meaning.At as At;

    ghost Value = { At.Target };

    ghost view = { λ t. record {
      destination = string_bytes t.destination;
      title = if t.has_title then Some (string_bytes t.title) else None;
    } };
}

impl Target {
    /// No destination and no title.
    pub fn new(alloc: Global) -> Target
        ensures { result ≡ nowhere }
    {
        Target {
            destination: String::new(alloc),
            title: String::new(alloc),
            has_title: false,
        }
    }

    /// Resets the target.
    pub fn clear(&mut self)
        ensures { self.new ≡ nowhere }
    {
        self.destination.clear();
        self.has_title = false;
    }

    /// Stores the innermost text as the destination, and ends that text.
    ///
    /// # Errors
    ///
    /// Returns an error only if memory runs out.
    pub fn note_destination(&mut self, out: &mut Output) -> Result<(), AllocError>
        ensures noted { OnOk result (self.new ≡ record self.old { destination = out.old.text }) }
        ensures left { OnOk result (out.new
            ≡ record { text = first_or [] out.old.below; below = others_of out.old.below }) }
    {
        let destination = &mut self.destination;
        destination.clear();
        out.move_into(destination)
    }

    /// Stores the innermost text as the title, and ends that text.
    ///
    /// # Errors
    ///
    /// Returns an error only if memory runs out.
    pub fn note_title(&mut self, out: &mut Output) -> Result<(), AllocError>
        ensures noted { OnOk result (self.new ≡ record self.old { title = Some out.old.text }) }
        ensures left { OnOk result (out.new
            ≡ record { text = first_or [] out.old.below; below = others_of out.old.below }) }
    {
        self.has_title = true;
        self.title.clear();
        out.move_into(&mut self.title)
    }

    /// Borrows the target.
    pub fn target_ref(&self) -> TargetRef
        ensures { result ≡ self.now }
    {
        TargetRef {
            destination: self.destination.as_str(),
            title: self.title(),
        }
    }

    /// The title, if there is one.
    fn title(&self) -> Option<&str>
        ensures { option_copied result ≡ self.now.title }
    {
        if self.has_title {
            Some(self.title.as_str())
        } else {
            None
        }
    }

    /// Returns a copy of the target, with no more capacity than it needs.
    ///
    /// # Errors
    ///
    /// Returns an error only if memory runs out.
    pub fn copied(&self, alloc: Global) -> Result<Target, AllocError>
        ensures { IfOk result (λ other. other ≡ self.now) }
    {
        let destination = String::from_str(alloc, self.destination.as_str())?;
        let title = if self.has_title {
            String::from_str(alloc, self.title.as_str())?
        } else {
            String::new(alloc)
        };
        Ok(Target {
            destination,
            title,
            has_title: self.has_title,
        })
    }
}
