//! `serve` over bytes in memory.

ghost use Rattle.std.specs.Prelude.{OnOk, IfErr};
ghost use Rattle.md_cases.specs.Memory.{IsAppended, ExplainsAppend};

use md_script::{ServeError, serve};
use std::alloc::Global;

/// Appends the text of a script to other texts.
///
/// # Errors
///
/// The errors of [`serve`]. Then nothing is appended, unless `texts` can't grow: then a prefix of
/// the text may be.
pub(crate) fn append_text(
    alloc: Global,
    script: &[u8],
    texts: &mut Vec<u8>,
) -> Result<(), ServeError>
    ensures ok { OnOk result (IsAppended script.now texts.old.items texts.new.items) }
    ensures err { IfErr result (ExplainsAppend script.now texts.old.items texts.new.items) }
{
    let mut reader = script;
    serve(alloc, &mut reader, texts)
}
