//! The shared context of a document's nodes.

use md_buffer::Target;
use md_text::CompileOptions;
use md_tree::Checked;
use std::alloc::Global;
use std::marker::Model;

/// Shared context.
#[derive(Clone, Copy)]
pub struct Context<'a> {
    /// The allocator for texts.
    pub alloc: Global,
    /// The events, and the facts that the check found about them.
    pub checked: &'a Checked<'a>,
    /// The options.
    pub options: &'a CompileOptions,
    /// The line ending to print.
    pub ending: &'a str,
    /// The targets of the definitions, in the order of their exits.
    pub definitions: &'a [Target],
}
