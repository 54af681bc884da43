//! The input document.

use md_lines::Line;
use std::alloc::Global;

/// A document: its bytes, the lines of all its leaves, and whether its URLs have a base.
#[derive(Clone, Copy)]
pub(crate) struct Source<'a> {
    pub(crate) alloc: Global,
    pub(crate) bytes: &'a [u8],
    pub(crate) lines: &'a [Line],
    pub(crate) has_base: bool,
}
