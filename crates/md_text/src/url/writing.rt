//! Writes the bytes of a URL, unchanged or encoded.

ghost use Rattle.std.specs.Prelude.{◌≡◌, ◌≤◌, ◌<◌, ◌++◌, ◌∷◌, ◌/◌, ◌%◌, false, IfOk, OnOk, drop};
ghost use Rattle.std.specs.Prelude.{length};
ghost use Rattle.std.specs.String.{string_bytes};
ghost use Rattle.md_text.specs.Kept.{begins_kept, AreKept, changed_byte};
ghost use Rattle.md_text.specs.Laws.{AreAscii};
ghost use Rattle.md_text.specs.Url.{hex_digit, percent, sanitized};

use super::kept::kept_length;
use std::alloc::AllocError;

/// The hexadecimal digits, in upper case.
const HEX_DIGITS: [u8; 16] = *b"0123456789ABCDEF";

/// Writes ASCII bytes.
#[inline(always)]
fn push_ascii(out: &mut String, bytes: &[u8]) -> Result<(), AllocError>
    requires { AreAscii bytes.now }
    ensures { OnOk result (string_bytes out.new ≡ string_bytes out.old ++ bytes.now) }
{
    out.push_str(unsafe { str::from_utf8_unchecked(bytes) })
}

/// Writes the unchanged bytes at the beginning, or the replacement of the first byte, and returns
/// the rest.
#[inline(always)]
pub(super) fn push_low<'a>(out: &mut String, rest: &'a [u8]) -> Result<&'a [u8], AllocError>
    requires { 0 < length rest.now }
    ensures value { IfOk result
        (λ left.
        string_bytes out.new ++ sanitized left.now ≡ string_bytes out.old ++ sanitized rest.now) }
    ensures left { IfOk result (λ left. length left.now < length rest.now) }
{
    let run = kept_length(rest);
    match rest {
        [byte, after @ ..] if run == 0 => {
            push_changed(out, *byte)?;
            Ok(after)
        }
        _ => push_run(out, rest, run),
    }
}

/// Writes `run` bytes unchanged, then the replacement of the ASCII byte after them, and returns the
/// rest.
#[inline(always)]
fn push_run<'a>(out: &mut String, rest: &'a [u8], run: usize) -> Result<&'a [u8], AllocError>
    requires { (AreKept rest.now run) × (0 < run) × (begins_kept (drop run rest.now) ≡ false) }
    ensures value { IfOk result
        (λ left.
        string_bytes out.new ++ sanitized left.now ≡ string_bytes out.old ++ sanitized rest.now) }
    ensures left { IfOk result (λ left. length left.now < length rest.now) }
{
    let (kept, left) = rest.split_at(run);
    push_kept(out, kept)?;
    match left {
        [byte, after @ ..] if *byte < 0x80 => {
            push_changed(out, *byte)?;
            Ok(after)
        }
        _ => Ok(left),
    }
}

/// Writes ASCII bytes unchanged; a few of them by one copy.
#[inline(always)]
fn push_kept(out: &mut String, bytes: &[u8]) -> Result<(), AllocError>
    requires { AreAscii bytes.now }
    ensures { OnOk result (string_bytes out.new ≡ string_bytes out.old ++ bytes.now) }
{
    match bytes {
        [] => Ok(()),
        [a] => push_ascii(out, &[*a]),
        [a, b] => push_ascii(out, &[*a, *b]),
        [a, b, c] => push_ascii(out, &[*a, *b, *c]),
        _ => push_ascii(out, bytes),
    }
}

/// Writes the replacement of a byte outside ASCII, and of the next three if they are outside ASCII
/// too, and returns the rest.
#[inline(always)]
pub(super) fn push_high<'a>(
    out: &mut String,
    byte: u8,
    rest: &'a [u8],
) -> Result<&'a [u8], AllocError>
    requires { 128 ≤ byte }
    ensures value { IfOk result
        (λ left. string_bytes out.new ++ sanitized left.now
        ≡ string_bytes out.old ++ sanitized (byte ∷ rest.now)) }
    ensures left { IfOk result (λ left. length left.now ≤ length rest.now) }
{
    match rest {
        [b, c, d, left @ ..] if *b >= 0x80 && *c >= 0x80 && *d >= 0x80 => {
            push_four(out, byte, *b, *c, *d)?;
            Ok(left)
        }
        _ => {
            push_percent(out, byte)?;
            Ok(rest)
        }
    }
}

/// Writes the replacement of a byte.
#[inline(always)]
fn push_changed(out: &mut String, byte: u8) -> Result<(), AllocError>
    ensures { OnOk result (string_bytes out.new ≡ string_bytes out.old ++ changed_byte byte) }
{
    if byte == b'&' {
        out.push_str("&amp;")
    } else {
        push_percent(out, byte)
    }
}

/// Writes `%` and a byte in two hexadecimal digits.
#[inline(always)]
fn push_percent(out: &mut String, byte: u8) -> Result<(), AllocError>
    ensures { OnOk result (string_bytes out.new ≡ string_bytes out.old ++ percent byte) }
{
    push_ascii(out, &[b'%', hex_digit(byte / 16), hex_digit(byte % 16)])
}

/// The same for four bytes, which are appended at once.
#[inline(always)]
fn push_four(out: &mut String, a: u8, b: u8, c: u8, d: u8) -> Result<(), AllocError>
    ensures { OnOk result (string_bytes out.new
        ≡ string_bytes out.old ++ (percent a ++ (percent b ++ (percent c ++ percent d)))) }
{
    push_ascii(
        out,
        &[
            b'%',
            hex_digit(a / 16),
            hex_digit(a % 16),
            b'%',
            hex_digit(b / 16),
            hex_digit(b % 16),
            b'%',
            hex_digit(c / 16),
            hex_digit(c % 16),
            b'%',
            hex_digit(d / 16),
            hex_digit(d % 16),
        ],
    )
}

/// A hexadecimal digit, in upper case.
#[inline(always)]
fn hex_digit(digit: u8) -> u8
    requires { digit < 16 }
    ensures digit { result ≡ hex_digit digit }
    ensures ascii { result < 128 }
{
    HEX_DIGITS[usize::from(digit)]
}
