//! A footnote that is called, and the settings for printing the section.

use md_text::CompileOptions;
use std::alloc::Global;

/// The calls of one identifier.
#[derive(Clone, Copy)]
pub(crate) struct Called<'a> {
    /// Their identifier.
    pub(crate) identifier: &'a str,
    /// The number of their footnote: the position of its first call among those of all footnotes,
    /// from 1.
    pub(crate) number: usize,
    /// The number of calls.
    pub(crate) count: usize,
}

/// The settings for printing the section, the same for all footnotes.
#[derive(Clone, Copy)]
pub(crate) struct Settings<'a> {
    /// The allocator for writing numbers.
    pub(crate) alloc: Global,
    /// The options.
    pub(crate) options: &'a CompileOptions,
    /// The line ending to print.
    pub(crate) ending: &'a str,
}
