//! Compiles C's input to a text.

ghost use Rattle.std.specs.Prelude.{string_bytes, IfOk, IfErr};
ghost use Rattle.md_tree.specs.Grammar.{handed};
ghost use Rattle.md_abi.specs.Rendered.{IsRendered};
ghost use Rattle.md_abi.specs.Failures.{Explains, IsRefusalOf};
ghost use Rattle.md_html.specs.Promises.{Promises};

use crate::event::{CEvent, read_c_events};
use crate::failure::Failure;
use crate::option::{COptions, read_options};
use crate::reference::{CReference, read_references};
use md_base::Event;
use md_html::compile;
use md_text::CompileOptions;
use std::alloc::Global;

/// A document as C passes it.
#[derive(Clone, Copy)]
pub struct CDocument<'a> {
    /// Its events.
    pub events: &'a [CEvent],
    /// Its bytes.
    pub bytes: &'a [u8],
    /// The options for compiling it.
    pub options: &'a COptions<'a>,
    /// The named character references that it may have.
    pub names: &'a [CReference<'a>],
}

/// Compiles C's input to HTML.
///
/// # Errors
///
/// Reports what is invalid, the refusal of the compiler, or that memory ran out.
pub fn compile_given(alloc: Global, given: CDocument) -> Result<String, Failure>
    ensures ok { IfOk result (λ text. IsRendered given.entry.events.now given.entry.bytes.now
        given.entry.options.now given.entry.names.now (string_bytes text)) }
    ensures err { IfErr result (Explains given.entry.events.now given.entry.bytes.now
        given.entry.options.now given.entry.names.now) }
{
    let events = read_c_events(alloc, given.events)?;
    let names = read_references(alloc, given.names)?;
    let options = read_options(alloc, given.options)?;
    compile_read(
        alloc,
        events.as_slice(),
        given.bytes,
        &options,
        names.as_slice(),
    )
}

/// Compiles the converted input to HTML.
fn compile_read(
    alloc: Global,
    events: &[Event],
    bytes: &[u8],
    options: &CompileOptions,
    names: &[(&str, &str)],
) -> Result<String, Failure>
    ensures ok { IfOk result (λ text.
        Promises options.now (handed events.now bytes.now names.now) (string_bytes text)) }
    ensures err { IfErr result (IsRefusalOf (handed events.now bytes.now names.now)) }
{
    Ok(compile(alloc, events, bytes, options, names)?)
}
