//! Compiles C's input to a safe text of a document in which no link contains a link.

ghost use Rattle.std.specs.Prelude.{IfOk, IfErr};
ghost use Rattle.md_tree.specs.Grammar.{handed};
ghost use Rattle.md_abi.specs.Unnested.{IsUnnestedText};
ghost use Rattle.md_abi.specs.UnnestedFailures.{IsCompiledUnnested, IsUnnestedFault};
ghost use Rattle.md_abi.specs.UnnestedFailures.{ExplainsUnnested};

use crate::event::read_c_events;
use crate::failure::Failure;
use crate::given::CDocument;
use crate::option::read_options;
use crate::reference::read_references;
use crate::refusal::Refusal;
use md_base::Event;
use md_html::{SafeHtml, UnnestedError, compile_unnested};
use md_text::CompileOptions;
use std::alloc::Global;

/// Why a call has no text without a link in a link.
#[derive(Drop)]
pub enum UnnestedFailure {
    /// A link contains a link.
    Nested,
    /// There is no safe text.
    Refused(Refusal),
}

impl From<Failure> for UnnestedFailure {
    ghost use Rattle.std.specs.Prelude.{◌≡◌};
    ghost use Rattle.md_abi.specs.declared.refusal.Refusal.TheVariants.{Failed};
    ghost use Rattle.md_abi.specs.declared.unnested.UnnestedFailure.TheVariants.{Refused};

    ghost from_gives = { λ failure made. made ≡ Refused (Failed failure) };

    fn from(failure: Failure) -> UnnestedFailure {
        UnnestedFailure::Refused(Refusal::Failed(failure))
    }
}

impl From<UnnestedError> for UnnestedFailure {
    ghost use Rattle.std.specs.Prelude.{◌≡◌};
    ghost use Rattle.md_abi.specs.UnnestedFailures.{unnested_failure_of};

    ghost from_gives = { λ error made. made ≡ unnested_failure_of error };

    fn from(error: UnnestedError) -> UnnestedFailure {
        match error {
            UnnestedError::Nested => UnnestedFailure::Nested,
            UnnestedError::Safe(cause) => UnnestedFailure::Refused(Refusal::from(cause)),
        }
    }
}

/// Compiles C's input to safe HTML, if no link contains a link.
///
/// # Errors
///
/// Reports what is invalid, that the options aren't safe, that a link contains a link, the refusal
/// of the compiler, or that memory ran out.
pub fn compile_given_unnested(alloc: Global, given: CDocument) -> Result<SafeHtml, UnnestedFailure>
    ensures ok { IfOk result (IsUnnestedText given.entry.events.now given.entry.bytes.now
        given.entry.options.now given.entry.names.now) }
    ensures err { IfErr result (ExplainsUnnested given.entry.events.now given.entry.bytes.now
        given.entry.options.now given.entry.names.now) }
{
    let events = read_c_events(alloc, given.events)?;
    let names = read_references(alloc, given.names)?;
    let options = read_options(alloc, given.options)?;
    compile_read_unnested(
        alloc,
        events.as_slice(),
        given.bytes,
        &options,
        names.as_slice(),
    )
}

/// Compiles the converted input to safe HTML, if no link contains a link.
fn compile_read_unnested(
    alloc: Global,
    events: &[Event],
    bytes: &[u8],
    options: &CompileOptions,
    names: &[(&str, &str)],
) -> Result<SafeHtml, UnnestedFailure>
    ensures ok { IfOk result
        (IsCompiledUnnested (handed events.now bytes.now names.now) options.now) }
    ensures err { IfErr result
        (IsUnnestedFault (handed events.now bytes.now names.now) options.now) }
{
    let html = compile_unnested(alloc, events, bytes, options, names)?;
    // The call brings the promises about the text into the proof.
    let _text = html.as_str();
    Ok(html)
}
