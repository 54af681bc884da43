//! The calls that compile a script.

use crate::reading::Script;
use md_html::{
    CompileError, Counted, Limits, WithinError, check, compile, compile_checked, compile_counted,
    compile_within, depth_of, reuse_of, work_of,
};
use std::alloc::Global;

impl Script<'_> {
    /// The result of `compile` with these names of references.
    pub(crate) fn compile(
        &self,
        alloc: Global,
        names: &[(&str, &str)],
    ) -> Result<String, CompileError> {
        let events = self.events.as_slice();
        compile(alloc, events, self.document, &self.options, names)
    }

    /// The result of `compile_counted`.
    pub(crate) fn compile_counted(
        &self,
        alloc: Global,
        names: &[(&str, &str)],
    ) -> Result<Counted, CompileError> {
        let events = self.events.as_slice();
        compile_counted(alloc, events, self.document, &self.options, names)
    }

    /// The result of `compile_checked`, once the events are checked.
    pub(crate) fn compile_checked(
        &self,
        alloc: Global,
        names: &[(&str, &str)],
    ) -> Result<String, CompileError> {
        let checked = check(alloc, self.events.as_slice(), self.document, names)?;
        compile_checked(alloc, &checked, &self.options).map_err(CompileError::from)
    }

    /// The result of `compile_within` if the text may have `text` bytes, and the other limits are
    /// exact: that on work is the work, or the reuse if that is more, and that on depth is the
    /// depth of the events.
    pub(crate) fn compile_within(
        &self,
        alloc: Global,
        names: &[(&str, &str)],
        text: usize,
    ) -> Result<String, WithinError> {
        let events = self.events.as_slice();
        let checked = check(alloc, events, self.document, names)?;
        let reuse = reuse_of(alloc, &checked, &self.options)?;
        drop(checked);
        let limits = Limits {
            text,
            work: work_of(events).max(reuse),
            depth: depth_of(events),
        };
        compile_within(alloc, events, self.document, &self.options, names, limits)
    }
}
