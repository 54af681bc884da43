//! Tables of values whose keys are texts.

ghost use Rattle.std.specs.Prelude.{◌≡◌};
ghost use Rattle.md_base.specs.Table as spec;

/// The value of the first entry with this text.
pub(crate) fn listed<T: Copy>(table: &[(&str, T)], text: &[u8]) -> Option<T>
    ensures { result ≡ spec.listed (spec.entries_of table.now) text.now }
{
    for (entry, value) in table {
        if entry.as_bytes() == text {
            return Some(*value);
        }
    }
    None
}
