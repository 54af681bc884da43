//! Pending heads, to be inserted into a text later.

ghost use Rattle.std.specs.Prelude.{◌≡◌, ◌≤◌, ◌∷◌, ◌++◌, OnOk, OnErr, string_bytes, length, take};
ghost use Rattle.std.specs.Prelude.{drop, vec_len};
ghost use Rattle.std.specs.Str.{IsCharBoundary};
ghost use Rattle.md_buffer.specs.Waiting.{merged, Fit, is_open, waits, without_open, texts_from};

use std::alloc::AllocError;

/// A pending head: the offset where it is inserted, and the range of its text among the texts of
/// heads. An empty one reserves the offset of an open label.
#[derive(Clone, Copy)]
pub(crate) struct Head {
    pub(crate) place: usize,
    pub(crate) from: usize,
    pub(crate) to: usize,
}

/// Whether some head is nonempty, or there are several: then a head can no longer be inserted at
/// once.
#[inline(always)]
pub(crate) fn waits(waiting: &[Head]) -> bool
    ensures { result ≡ waits waiting.now }
{
    match waiting {
        [] => false,
        [head] => head.from != head.to,
        _ => true,
    }
}

/// Whether the first head reserves the offset of an open label.
fn is_open(waiting: &[Head]) -> bool
    ensures { result ≡ is_open waiting.now }
{
    match waiting.first() {
        Some(head) => head.from == head.to,
        None => false,
    }
}

/// Inserts a pending head at an index, or replaces the reserved one there.
pub(crate) fn wait_first(
    waiting: &mut Vec<Head>,
    first: usize,
    head: Head,
) -> Result<(), AllocError>
    requires { first ≤ vec_len waiting.old }
    ensures items { OnOk result (waiting.new.items
        ≡ take first waiting.old.items ++ head ∷ without_open (drop first waiting.old.items)) }
    ensures err { OnErr result (waiting.new.items ≡ waiting.old.items) }
{
    if is_open(&waiting.as_slice()[first..]) {
        waiting[first] = head;
        return Ok(());
    }
    waiting.insert(first, head)?;
    Ok(())
}

/// Removes the heads from an index, and their texts, which start at an offset.
#[inline(always)]
pub(crate) fn forget_from(heads: &mut String, waiting: &mut Vec<Head>, first: usize, place: usize)
    requires { IsCharBoundary (string_bytes heads.old) place }
    ensures items { waiting.new.items ≡ take first waiting.old.items }
    ensures texts { string_bytes heads.new
        ≡ texts_from first place waiting.old.items (string_bytes heads.old) }
{
    if waiting.len() > first {
        waiting.truncate(first);
        heads.truncate(place);
    }
}

/// Appends a text from an offset, with its heads inserted.
///
/// # Errors
///
/// Returns an error only if memory runs out.
pub(crate) fn push_merged(
    out: &mut String,
    text: &str,
    heads: &str,
    waiting: &[Head],
    start: usize,
) -> Result<(), AllocError>
    requires { Fit text.now heads.now (length text.now) start waiting.now }
    ensures { OnOk result (string_bytes out.new
        ≡ string_bytes out.old ++ merged text.now heads.now start waiting.now) }
{
    let mut done = start;
    let mut rest = waiting;
    while let Some((head, after)) = rest.split_first() {
        out.push_str(&text[done..head.place])?;
        out.push_str(&heads[head.from..head.to])?;
        done = head.place;
        rest = after;
    }
    out.push_str(&text[done..])
}
