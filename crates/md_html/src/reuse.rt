//! The reuse of a document: definitions for the links and images that refer to them, and for
//! footnote calls their labels and the texts of options.

ghost use Rattle.std.specs.Prelude.{◌≡◌, ◌^◌, ◌-◌, IfOk, min, nat_lt};
ghost use Rattle.md_base.specs.Tree.{Forest, flatten};
ghost use Rattle.md_html.specs.Reuse.{reuse, is_call, entries, call_texts, option_length};
ghost use Rattle.md_measure.specs.Referred.{IsCounted};

use crate::work::measure;
use md_measure::{call_lengths, referred_of};
use md_text::CompileOptions;
use md_tree::Checked;
use std::alloc::{AllocError, Global};

/// Returns how much a document uses again when it is printed, or `usize::MAX` if it is more.
///
/// The count is, for each link and image that refers to a definition, the length of what is read in
/// that definition and one for each of its events; and for each footnote call five times its
/// length, four times the length of `gfm_footnote_clobber_prefix` and that of
/// `gfm_footnote_back_label`.
///
/// # Errors
///
/// `AllocError`, only if memory runs out.
///
/// # Examples
///
/// ```
/// let checked = check(alloc, &events, bytes, names)?;
/// let work = work_of(&events).max(reuse_of(alloc, &checked, &options)?);
/// let limits = Limits { text: 1 << 20, work, depth: 256 };
/// ```
pub fn reuse_of(
    alloc: Global,
    checked: &Checked,
    options: &CompileOptions,
) -> Result<usize, AllocError>
    ensures { IfOk result (λ used. (document : Forest) → flatten document ≡ checked.now.events
        → used ≡ min (reuse options.now checked.now.bytes document) (2 ^ 64 - 1)) }
{
    let calls = measure(checked.events()).calls();
    let used = count_reuse(alloc, checked, options, calls)?;
    Ok(used.min(usize::MAX as u128) as usize)
}

/// Whether a document's reuse exceeds a limit.
///
/// # Errors
///
/// `AllocError`, only if memory runs out.
pub(crate) fn is_reuse_over(
    alloc: Global,
    checked: &Checked,
    options: &CompileOptions,
    limit: usize,
    calls: usize,
) -> Result<bool, AllocError>
    requires { calls ≡ entries is_call checked.now.events }
    ensures { IfOk result (λ over. (document : Forest) → flatten document ≡ checked.now.events
        → over ≡ nat_lt limit (reuse options.now checked.now.bytes document)) }
{
    let used = count_reuse(alloc, checked, options, calls)?;
    Ok(used > limit as u128)
}

/// The reuse of a document with `calls` footnote calls, or the greatest number if it is more.
fn count_reuse(
    alloc: Global,
    checked: &Checked,
    options: &CompileOptions,
    calls: usize,
) -> Result<u128, AllocError>
    requires { calls ≡ entries is_call checked.now.events }
    ensures { IfOk result (IsCounted (reuse options.now checked.now.bytes) checked.now) }
{
    let referred = referred_of(alloc, checked)?;
    if calls == 0 {
        return Ok(referred);
    }
    let texts = (calls as u128).saturating_mul(call_texts(options));
    let called = call_lengths(checked.events());
    Ok(
        referred
            .saturating_add(texts)
            .saturating_add(called.saturating_mul(5)),
    )
}

/// The lengths of the option texts that a footnote call prints.
fn call_texts(options: &CompileOptions) -> u128
    ensures { result ≡ call_texts options.now }
{
    let prefix = option_length(&options.gfm_footnote_clobber_prefix);
    let label = option_length(&options.gfm_footnote_back_label);
    4 * prefix as u128 + label as u128
}

/// The length of an option's text, 0 if it is unset.
fn option_length(text: &Option<String>) -> usize
    ensures { result ≡ option_length text.now }
{
    text.as_ref().map_or(0, |text| text.len())
}
