//! Merges paths and removes dots.

ghost use Rattle.std.specs.Prelude.{◌≡◌, ◌++◌, [], IfOk, OnOk, map};
ghost use Rattle.std.specs.List.{join_with_byte};
ghost use Rattle.md_urls.specs.Urls.{parts_of};
ghost use Rattle.md_urls.specs.Resolved.{begins_empty, directory, path_by, segments, settle};
ghost use Rattle.md_urls.specs.Resolved.{with_segment, without_dots};

use crate::parts::Parts;
use std::alloc::{AllocError, Global};

/// A path in place of the last segment of the base's path (RFC 3986, 5.2.3), without its segments
/// `.` and `..`.
pub(crate) fn merged(alloc: Global, base: &Parts, path: &[u8]) -> Result<Vec<u8>, AllocError>
    ensures { IfOk result (λ whole. whole.items ≡ path_by (parts_of base.now) path.now) }
{
    if path.starts_with(b"/") {
        return without_dots(alloc, path);
    }
    let front: &[u8] = if base.authority.is_some() && base.path.is_empty() {
        b"/"
    } else {
        directory(base.path)
    };
    let mut whole = Vec::new(alloc);
    whole.extend_from_slice(front)?;
    whole.extend_from_slice(path)?;
    without_dots(alloc, whole.as_slice())
}

/// A path up to its last slash.
fn directory(path: &[u8]) -> &[u8]
    ensures { result.now ≡ directory path.now }
{
    let mut front = path;
    while let Some((last, before)) = front.split_last() {
        if *last == b'/' {
            break;
        }
        front = before;
    }
    front
}

/// A path without its segments `.` and `..` (5.2.4). A path that isn't absolute stays relative, and
/// only an empty one becomes empty.
pub(crate) fn without_dots(alloc: Global, path: &[u8]) -> Result<Vec<u8>, AllocError>
    ensures { IfOk result (λ whole. whole.items ≡ without_dots path.now) }
{
    let Some((first, rest)) = path.split_first() else {
        return Ok(Vec::new(alloc));
    };
    let mut whole = Vec::with_capacity(alloc, path.len())?;
    if *first == b'/' {
        whole.push(b'/')?;
        let kept = settled(alloc, rest)?;
        push_joined(&mut whole, kept.as_slice())?;
    } else {
        let kept = settled(alloc, path)?;
        if begins_empty(kept.as_slice()) {
            whole.extend_from_slice(b"./")?;
        }
        push_joined(&mut whole, kept.as_slice())?;
    }
    Ok(whole)
}

/// Whether the first segment is empty, so that a path of these would be empty or absolute.
fn begins_empty(segments: &[&[u8]]) -> bool
    ensures { result ≡ begins_empty (map (λ segment. segment.now) segments.now) }
{
    match segments.first() {
        Some(first) => first.is_empty(),
        None => true,
    }
}

/// The segments of a path, which slashes separate.
fn segments(alloc: Global, path: &[u8]) -> Result<Vec<&[u8]>, AllocError>
    ensures { IfOk result (λ parts. map (λ part. part.now) parts.items ≡ segments path.now) }
{
    path.split(|byte| *byte == b'/').collect(alloc)
}

/// The segments of a path without `.` and `..`.
fn settled(alloc: Global, path: &[u8]) -> Result<Vec<&[u8]>, AllocError>
    ensures { IfOk result (λ kept. map (λ part. part.now) kept.items ≡ settle [] (segments path.now)) }
{
    let parts = segments(alloc, path)?;
    settle(alloc, parts.as_slice())
}

/// Segments without `.` and `..`.
fn settle<'a>(alloc: Global, segments: &[&'a [u8]]) -> Result<Vec<&'a [u8]>, AllocError>
    ensures { IfOk result (λ kept. map (λ part. part.now) kept.items
        ≡ settle [] (map (λ part. part.now) segments.now)) }
{
    let mut kept = Vec::new(alloc);
    for (index, segment) in segments.iter().enumerate() {
        add_segment(&mut kept, *segment, &segments[index + 1..])?;
    }
    Ok(kept)
}

/// Adds a segment to those that are kept, before some more.
fn add_segment<'a>(
    kept: &mut Vec<&'a [u8]>,
    segment: &'a [u8],
    more: &[&'a [u8]],
) -> Result<(), AllocError>
    ensures { OnOk result (map (λ part. part.now) kept.new.items
        ≡ with_segment (map (λ part. part.now) kept.old.items) segment.now
        (map (λ part. part.now) more.now)) }
{
    let is_parent = segment == b"..".as_slice();
    if !is_parent && segment != b".".as_slice() {
        kept.push(segment)?;
        return Ok(());
    }
    if is_parent {
        kept.pop();
    }
    if more.is_empty() {
        kept.push(b"")?;
    }
    Ok(())
}

/// Appends segments, separated by slashes.
fn push_joined(path: &mut Vec<u8>, segments: &[&[u8]]) -> Result<(), AllocError>
    ensures { OnOk result (path.new.items
        ≡ path.old.items ++ join_with_byte 47 (map (λ part. part.now) segments.now)) }
{
    let Some((first, rest)) = segments.split_first() else {
        return Ok(());
    };
    path.extend_from_slice(first)?;
    for segment in rest {
        path.push(b'/')?;
        path.extend_from_slice(segment)?;
    }
    Ok(())
}
