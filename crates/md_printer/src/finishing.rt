//! The state before the first event, and after the last one.

ghost use Rattle.std.specs.Prelude.{◌≡◌, ◌<◌, [], IfOk, true, length, string_bytes};
ghost use Rattle.md_meaning.specs.Meaning.At as At;
ghost use Rattle.md_meaning.specs.Meaning.Layout.{laid_after};
ghost use Rattle.md_meaning.specs.Meaning.Footnotes.{section};
ghost use Rattle.md_steps.specs.Steps as steps;

use crate::printer::Printer;
use crate::scope::OUTSIDE;
use md_base::Name;
use md_buffer::Target;
use md_footnotes::Footnotes;
use md_text::CompileOptions;
use std::alloc::{AllocError, Global};

impl<'a> Printer<'a> {
    /// Reserves capacity for the text of a document of `bytes` bytes, if there is memory for it.
    pub fn reserve(&mut self, bytes: usize)
        ensures { self.new ≡ self.old }
    {
        self.output.reserve(bytes);
    }

    /// Removes the printed text; keeps the capacity.
    pub fn restart(&mut self, alloc: Global)
        ensures { self.new ≡ steps.beginning }
    {
        self.output.clear();
        self.scope = OUTSIDE;
        self.scopes.clear();
        self.is_slurping = false;
        self.ended = None;
        self.marker = b'&';
        self.fences = 0;
        self.has_chunk = false;
        self.heading.clear();
        self.cells = 0;
        self.target.clear();
        self.has_resource = false;
        self.footnotes = Footnotes::new(alloc);
    }

    /// Skips a definition, which is printed before all else.
    pub fn pass_definition(&mut self)
        ensures { self.new ≡ steps.passed self.old }
    {
        self.ends(Name::Definition);
    }

    /// Whether no text is captured and the printed one is longer than this, even without its
    /// pending heads.
    #[inline(always)]
    pub fn is_longer(&self, limit: usize) -> bool
        ensures { result ≡ true → (self.now.below ≡ []) × (limit < length self.now.text) }
    {
        self.output.is_longer(limit)
    }

    /// Returns the whole text, with the section of footnotes.
    ///
    /// # Errors
    ///
    /// Returns an error only if memory runs out.
    pub fn into_text(
        self,
        alloc: Global,
        options: &CompileOptions,
        ending: &str,
    ) -> Result<String, AllocError>
        ensures { IfOk result
            (λ text. (context : At.Context) → context.options ≡ options.now
            → context.ending ≡ ending.now → context.calls ≡ self.entry.calls → string_bytes text
            ≡ laid_after context.ending self.entry.text (section context self.entry.footnotes)) }
    {
        let Printer {
            output,
            scope: _,
            scopes: _,
            is_slurping: _,
            ended: _,
            marker: _,
            fences: _,
            has_chunk: _,
            heading: _,
            cells: _,
            target: _,
            resource: _,
            has_resource: _,
            footnotes,
            scratch: _,
        } = self;
        let mut text = output.into_text(alloc)?;
        footnotes.push_section(alloc, &mut text, options, ending)?;
        Ok(text)
    }

    /// The target of the definition that was printed last.
    ///
    /// # Errors
    ///
    /// Returns an error only if memory runs out.
    pub fn target(&self, alloc: Global) -> Result<Target, AllocError>
        ensures { IfOk result (λ target. target ≡ self.now.target) }
    {
        self.target.copied(alloc)
    }
}
