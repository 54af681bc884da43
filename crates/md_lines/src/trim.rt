//! Trims spaces and tabs at the ends of a part of a line.

ghost use Rattle.std.specs.Prelude.{◌≡◌, ◌≤◌, ◌<◌, ◌+◌, ◌-◌, false, drop, get_or};
ghost use Rattle.std.specs.List.{prefix_len};
ghost use Rattle.md_lines.specs.Lines.{is_blank};

/// The index of the first byte from `start` that is neither a space nor a tab; `end` if all bytes
/// before it are.
#[inline]
pub fn trim_start(bytes: &[u8], start: usize, end: usize) -> usize
    ensures after { start ≤ result }
    ensures within { start ≤ end → result ≤ end }
    ensures none_skipped { result ≤ start + prefix_len is_blank (drop start bytes.now) }
    ensures first { result < end
        → result ≡ start + prefix_len is_blank (drop start bytes.now) }
{
    let mut at = start;
    while at < end && at < bytes.len() && is_blank(bytes[at]) {
        at += 1;
    }
    at
}

/// The index where the spaces and tabs before `end` begin, at least `start`.
#[inline]
pub fn trim_end(bytes: &[u8], start: usize, end: usize) -> usize
    ensures within { result ≤ end }
    ensures after { start ≤ end → start ≤ result }
    ensures blank { end ≤ result + prefix_len is_blank (drop result bytes.now) }
    ensures last { start < result → is_blank (get_or bytes.now (result - 1) 0) ≡ false }
{
    let mut at = end;
    while at > start && at <= bytes.len() && is_blank(bytes[at - 1]) {
        at -= 1;
    }
    at
}

/// Whether a byte is a space or a tab.
#[inline(always)]
fn is_blank(byte: u8) -> bool
    ensures { result ≡ is_blank byte }
{
    byte == b' ' || byte == b'\t'
}
