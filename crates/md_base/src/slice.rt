//! The bytes between two points of a document, and the columns of the tabs that are cut there.

ghost use Rattle.std.specs.Prelude.{◌≡◌, ◌+◌, ◌^◌, ◌<◌, ◌++◌, true, SomeIff, min, replicate};
ghost use Rattle.std.specs.Prelude.{length, nat_le, ◌&&◌, is_some, option_copied, option_map};
ghost use Rattle.std.specs.Prelude.{string_bytes, slice_range, IfSome, IfOk, OnOk};
ghost use Rattle.md_base.specs.Place as spec;
ghost use Rattle.md_base.specs.Place.{fits, bytes_between, spaces_before, spaces_after, text_when};
ghost use Rattle.md_base.specs.Place.{text_between};

use crate::event::{Point, Position};
use crate::text::as_text;
use std::alloc::{AllocError, Global};

/// The number of columns of a tab.
const TAB_SIZE: usize = 4;

/// The bytes of a node, and the columns of the tabs that are cut at its two ends.
///
/// # Examples
///
/// ```
/// // Two columns of the first tab are taken before the start, three of the second before the end.
/// let start = Point { line: 1, column: 3, index: 0, vs: 2 };
/// let end = Point { line: 1, column: 8, index: 2, vs: 3 };
/// let slice = Slice::from_position(b"\ta\t", &Position { start, end });
/// // Its bytes are "a\t", its text is "  a\t  ", and its length is 6.
/// ```
#[derive(Drop)]
pub struct Slice<'a> {
    /// The bytes.
    pub bytes: &'a [u8],
    /// How many spaces replace a tab that is cut at the start.
    pub before: usize,
    /// How many spaces replace a tab that is cut at the end.
    pub after: usize,
}

impl<'a> Slice<'a> {
    /// Returns the slice between the points of a position, or `None` if these don't fit the bytes.
    ///
    /// # Examples
    ///
    /// ```
    /// // Two columns of the first tab are taken before the start, three of the second before the
    /// // end.
    /// let start = Point { line: 1, column: 3, index: 0, vs: 2 };
    /// let end = Point { line: 1, column: 8, index: 2, vs: 3 };
    /// if let Some(slice) = Slice::from_position(b"\ta\t", &Position { start, end }) {
    ///     assert_eq!(slice.bytes, b"a\t".as_slice());
    ///     assert_eq!((slice.before, slice.after), (2, 2));
    /// }
    /// ```
    #[inline(always)]
    pub fn from_position(bytes: &'a [u8], position: &Position) -> Option<Slice<'a>>
        ensures fits { is_some result ≡ fits bytes.now position.now.start position.now.end }
        ensures bytes { IfSome result
            (λ slice.
            slice.bytes.now ≡ bytes_between bytes.now position.now.start position.now.end) }
        ensures before { IfSome result (λ slice. slice.before ≡ spaces_before position.now.start) }
        ensures after { IfSome result (λ slice. slice.after ≡ spaces_after position.now.end) }
    {
        let Position { start, end } = *position;
        Some(Slice {
            bytes: bytes_at(bytes, start, end)?,
            before: if start.vs > 0 { TAB_SIZE - start.vs } else { 0 },
            after: end.vs.saturating_sub(1),
        })
    }

    /// Returns the slice between two indices, or `None` unless they are in order and within the
    /// bytes.
    ///
    /// # Examples
    ///
    /// ```
    /// if let Some(slice) = Slice::from_indices(b"\ta\t", 1, 2) {
    ///     assert_eq!(slice.bytes, b"a".as_slice());
    /// }
    /// assert!(Slice::from_indices(b"\ta\t", 2, 4).is_none());
    /// ```
    #[inline(always)]
    pub fn from_indices(bytes: &'a [u8], start: usize, end: usize) -> Option<Slice<'a>>
        ensures fits { is_some result ≡ (nat_le start end && nat_le end (length bytes.now)) }
        ensures bytes { IfSome result (λ slice. slice.bytes.now ≡ slice_range bytes.now start end) }
        ensures before { IfSome result (λ slice. slice.before ≡ 0) }
        ensures after { IfSome result (λ slice. slice.after ≡ 0) }
    {
        Some(Slice {
            bytes: bytes_within(bytes, start, end)?,
            before: 0,
            after: 0,
        })
    }

    /// Returns the bytes between the points of a position as text, without the spaces at its ends,
    /// or `None` if the points don't fit the bytes or these aren't UTF-8.
    ///
    /// # Examples
    ///
    /// ```
    /// let start = Point { line: 1, column: 2, index: 1, vs: 0 };
    /// let end = Point { line: 1, column: 3, index: 2, vs: 0 };
    /// assert_eq!(Slice::text_at(b"*a*", &Position { start, end }), Some("a"));
    /// ```
    #[inline(always)]
    pub fn text_at(bytes: &'a [u8], position: &Position) -> Option<&'a str>
        ensures { option_copied result
            ≡ text_between bytes.now position.now.start position.now.end }
    {
        let between = Slice {
            bytes: bytes_at(bytes, position.start, position.end)?,
            before: 0,
            after: 0,
        };
        between.as_str()
    }

    /// Returns the number of bytes and spaces, or the greatest `usize` if it is larger.
    ///
    /// # Examples
    ///
    /// ```
    /// // Of two spaces, the bytes "a\t" and two spaces, as in the example of `Slice`:
    /// assert_eq!(slice.len(), 6);
    /// ```
    pub fn len(&self) -> usize
        ensures { result
            ≡ min (self.now.before + length self.now.bytes.now + self.now.after) usize.MAX }
    {
        self.before
            .saturating_add(self.bytes.len())
            .saturating_add(self.after)
    }

    /// Returns the bytes as text, or `None` if they aren't UTF-8.
    ///
    /// # Examples
    ///
    /// ```
    /// // Of two spaces, the bytes "a\t" and two spaces, as in the example of `Slice`:
    /// assert_eq!(slice.as_str(), Some("a\t"));
    /// ```
    #[inline(always)]
    pub fn as_str(&self) -> Option<&'a str>
        ensures { option_copied result ≡ text_when true self.now.bytes.now }
    {
        as_text(self.bytes)
    }

    /// Returns the bytes as text between the spaces, or `None` if they aren't UTF-8.
    ///
    /// # Errors
    ///
    /// `AllocError`, only if memory runs out: bytes that aren't UTF-8 return `None`.
    ///
    /// # Examples
    ///
    /// ```
    /// // Of two spaces, the bytes "a\t" and two spaces, as in the example of `Slice`:
    /// let text = slice.serialize(alloc)?;
    /// // Some("  a\t  ")
    /// ```
    pub fn serialize(&self, alloc: Global) -> Result<Option<String>, AllocError>
        ensures { let spaced =
            replicate self.now.before 32 ++ self.now.bytes.now ++ replicate self.now.after 32 in
            IfOk result (λ text. option_map string_bytes text ≡ text_when true spaced) }
    {
        let Some(inner) = self.as_str() else {
            return Ok(None);
        };
        let mut text = String::new(alloc);
        push_spaces(&mut text, self.before)?;
        text.push_str(inner)?;
        push_spaces(&mut text, self.after)?;
        Ok(Some(text))
    }
}

/// Returns the bytes between two points, or `None` if the points don't fit the bytes.
#[inline(always)]
fn bytes_at(bytes: &[u8], start: Point, end: Point) -> Option<&[u8]>
    ensures fits { is_some result ≡ fits bytes.now start end }
    ensures bytes { IfSome result (λ between. between.now ≡ bytes_between bytes.now start end) }
{
    // Few points lie inside a tab.
    if start.vs == 0 && end.vs == 0 {
        return bytes_within(bytes, start.index, end.index);
    }
    if start.vs > TAB_SIZE || end.vs > TAB_SIZE {
        return None;
    }
    bytes_within(bytes, byte_index(start)?, byte_index(end)?)
}

/// Returns the bytes between two indices, or `None` unless they are in order and within the bytes.
#[inline(always)]
fn bytes_within(bytes: &[u8], start: usize, end: usize) -> Option<&[u8]>
    ensures fits { is_some result ≡ (nat_le start end && nat_le end (length bytes.now)) }
    ensures bytes { IfSome result (λ between. between.now ≡ slice_range bytes.now start end) }
{
    if start <= end && end <= bytes.len() {
        Some(&bytes[start..end])
    } else {
        None
    }
}

/// The index of the byte after a point; inside a tab, of the byte after that tab.
fn byte_index(point: Point) -> Option<usize>
    ensures { SomeIff result (spec.byte_index point < 2 ^ 64) (spec.byte_index point) }
{
    if point.vs > 0 {
        point.index.checked_add(1)
    } else {
        Some(point.index)
    }
}

fn push_spaces(text: &mut String, count: usize) -> Result<(), AllocError>
    ensures { OnOk result (string_bytes text.new ≡ string_bytes text.old ++ replicate count 32) }
{
    for _space in 0..count {
        text.push(' ')?;
    }
    Ok(())
}
