//! Compiles scripts.

ghost use Rattle.std.specs.Prelude.{string_bytes, IfOk, IfErr};
ghost use Rattle.md_script.specs.Run.{IsCompiled, ExplainsEvents, IsTextOf, ExplainsRun};
ghost use Rattle.md_script.specs.SafeRun.{IsSafelyCompiled, ExplainsSafeEvents, IsSafeTextOf};
ghost use Rattle.md_script.specs.SafeRun.{ExplainsSafeRun};

use crate::error::{RunError, SafeRunError};
use crate::script::{Script, read_script};
use md_html::{SafeHtml, compile, compile_safe};
use std::alloc::Global;

/// The names of character references in a script's document, each with its text.
pub(crate) const REFERENCE_NAMES: [(&str, &str); 9] = [
    ("amp", "&"),
    ("lt", "<"),
    ("gt", ">"),
    ("quot", "\""),
    ("apos", "'"),
    ("colon", ":"),
    ("sol", "/"),
    ("num", "#"),
    ("quest", "?"),
];

/// Reads a script and compiles its events.
///
/// # Errors
///
/// `RunError::Line` if a line is invalid, `RunError::Event` if an event is refused, and
/// `RunError::Memory` if memory runs out.
///
/// # Examples
///
/// ```
/// let html = run(alloc, b"+ThematicBreak 0\n-ThematicBreak 3\n--\n***\n")?;
/// assert_eq!(html.as_str(), "<hr />");
/// ```
pub fn run(alloc: Global, input: &[u8]) -> Result<String, RunError>
    ensures text { IfOk result (λ text. IsTextOf input.now (string_bytes text)) }
    ensures err { IfErr result (λ error. ExplainsRun input.now error) }
{
    let script = read_script(alloc, input)?;
    compile_script(alloc, &script)
}

fn compile_script(alloc: Global, script: &Script) -> Result<String, RunError>
    ensures text { IfOk result (λ text.
        IsCompiled script.now.events.items script.now.document.now script.now.options
        (string_bytes text)) }
    ensures err { IfErr result (λ error.
        ExplainsEvents script.now.events.items script.now.document.now error) }
{
    Ok(compile(
        alloc,
        script.events.as_slice(),
        script.document,
        &script.options,
        &REFERENCE_NAMES,
    )?)
}

/// Reads a script and compiles its events, if its options are safe.
///
/// # Errors
///
/// `SafeRunError::Options` if the script is valid and its options aren't safe; else as [`run`].
///
/// # Examples
///
/// ```
/// let html = run_safe(alloc, b"+ThematicBreak 0\n-ThematicBreak 3\n--\n***\n")?;
/// assert_eq!(html.as_str(), "<hr />");
///
/// // An option that isn't safe.
/// let refused = run_safe(alloc, b"!allow_dangerous_html\n--\n");
/// // Err(SafeRunError::Options)
/// ```
pub fn run_safe(alloc: Global, input: &[u8]) -> Result<SafeHtml, SafeRunError>
    ensures text { IfOk result (λ html. IsSafeTextOf input.now html) }
    ensures err { IfErr result (λ error. ExplainsSafeRun input.now error) }
{
    let script = read_script(alloc, input)?;
    compile_safely(alloc, &script)
}

fn compile_safely(alloc: Global, script: &Script) -> Result<SafeHtml, SafeRunError>
    ensures text { IfOk result (λ html.
        IsSafelyCompiled script.now.events.items script.now.document.now script.now.options html) }
    ensures err { IfErr result (λ error.
        ExplainsSafeEvents script.now.events.items script.now.document.now
        script.now.options error) }
{
    Ok(compile_safe(
        alloc,
        script.events.as_slice(),
        script.document,
        &script.options,
        &REFERENCE_NAMES,
    )?)
}
