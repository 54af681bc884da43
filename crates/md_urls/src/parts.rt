//! The parts of a URL.

ghost use Rattle.std.specs.Prelude.{◌≡◌, ◌++◌, ◌==◌, OnOk};
ghost use Rattle.std.specs.List.{before_first, list_all, position};
ghost use Rattle.md_urls.specs.Urls.{after, authority_in, before, behind, behind_scheme, bytes_of};
ghost use Rattle.md_urls.specs.Urls.{guard, is_in_scheme, is_scheme, joined, parts_of, path_in};
ghost use Rattle.md_urls.specs.Urls.{scheme_in, split};

use std::alloc::AllocError;

/// The parts of a URL (RFC 3986, 3). A missing part is `None`; the path is never missing.
#[derive(Clone, Copy, Debug, PartialEq, Eq)]
pub struct Parts<'a> {
    /// The text before the first colon, if it is a scheme.
    pub scheme: Option<&'a [u8]>,
    /// The text after `//`.
    pub authority: Option<&'a [u8]>,
    pub path: &'a [u8],
    /// The text after the first `?`.
    pub query: Option<&'a [u8]>,
    /// The text after the first `#`.
    pub fragment: Option<&'a [u8]>,
}

impl<'a> Parts<'a> {
    /// Splits a URL into its parts.
    pub fn new(url: &'a [u8]) -> Parts<'a>
        ensures { parts_of result ≡ split url.now }
    {
        let (rest, fragment) = cut(url, b'#');
        let (rest, query) = cut(rest, b'?');
        let (scheme, rest) = cut_scheme(rest);
        let (authority, path) = cut_authority(rest);
        Parts {
            scheme,
            authority,
            path,
            query,
            fragment,
        }
    }

    /// Appends the URL of these parts (5.3).
    ///
    /// # Errors
    ///
    /// Returns an error only if memory runs out.
    pub fn push_onto(&self, url: &mut Vec<u8>) -> Result<(), AllocError>
        ensures { OnOk result (url.new.items ≡ url.old.items ++ joined (parts_of self.now)) }
    {
        push_before(url, self.scheme, b":")?;
        push_behind(url, b"//", self.authority)?;
        url.extend_from_slice(self.before_path())?;
        url.extend_from_slice(self.path)?;
        push_behind(url, b"?", self.query)?;
        push_behind(url, b"#", self.fragment)
    }

    /// The text to write before the path so that it is read as a path: without it, its beginning
    /// would be an authority (3.3), or a scheme (4.2).
    fn before_path(&self) -> &'static [u8]
        ensures { result.now ≡ guard (parts_of self.now) }
    {
        if self.authority.is_some() {
            return b"";
        }
        if self.path.starts_with(b"//") {
            return b"/.";
        }
        let (first, _) = cut(self.path, b'/');
        if self.scheme.is_none() && first.contains(&b':') {
            return b"./";
        }
        b""
    }
}

/// Appends a part, if it exists, and a mark after it.
fn push_before(url: &mut Vec<u8>, part: Option<&[u8]>, mark: &[u8]) -> Result<(), AllocError>
    ensures { OnOk result (url.new.items ≡ url.old.items ++ before (bytes_of part.entry) mark.now) }
{
    match part {
        Some(part) => {
            url.extend_from_slice(part)?;
            url.extend_from_slice(mark)
        }
        None => Ok(()),
    }
}

/// Appends a part, if it exists, with a mark before it.
fn push_behind(url: &mut Vec<u8>, mark: &[u8], part: Option<&[u8]>) -> Result<(), AllocError>
    ensures { OnOk result (url.new.items ≡ url.old.items ++ behind mark.now (bytes_of part.entry)) }
{
    match part {
        Some(part) => {
            url.extend_from_slice(mark)?;
            url.extend_from_slice(part)
        }
        None => Ok(()),
    }
}

/// The text before the first such mark, and the text after it.
fn cut(text: &[u8], mark: u8) -> (&[u8], Option<&[u8]>)
    ensures front { result.0.now ≡ before_first (λ byte. byte == mark) text.now }
    ensures back { bytes_of result.1 ≡ after mark text.now }
{
    match place_of(text, mark) {
        Some(at) => (&text[..at], Some(&text[at + 1..])),
        None => (text, None),
    }
}

/// The index of the first such mark.
fn place_of(text: &[u8], mark: u8) -> Option<usize>
    ensures { result ≡ position (λ byte. byte == mark) text.now }
{
    text.iter().position(|byte| *byte == mark)
}

/// The scheme at the beginning of a text, and the text after its colon.
fn cut_scheme(text: &[u8]) -> (Option<&[u8]>, &[u8])
    ensures scheme { bytes_of result.0 ≡ scheme_in text.now }
    ensures rest { result.1.now ≡ behind_scheme text.now }
{
    match cut(text, b':') {
        (scheme, Some(rest)) if is_scheme(scheme) => (Some(scheme), rest),
        _ => (None, text),
    }
}

/// The authority at the beginning of a text, and the text after it.
fn cut_authority(text: &[u8]) -> (Option<&[u8]>, &[u8])
    ensures authority { bytes_of result.0 ≡ authority_in text.now }
    ensures path { result.1.now ≡ path_in text.now }
{
    let Some(rest) = text.strip_prefix(b"//") else {
        return (None, text);
    };
    let end = place_of(rest, b'/').unwrap_or(rest.len());
    let (authority, path) = rest.split_at(end);
    (Some(authority), path)
}

/// Whether a text is a scheme: a letter, followed by letters, digits, `+`, `-` and `.`.
fn is_scheme(text: &[u8]) -> bool
    ensures { result ≡ is_scheme text.now }
{
    match text.first() {
        Some(first) => first.is_ascii_alphabetic() && are_in_scheme(text),
        None => false,
    }
}

/// Whether each byte of a text may occur in a scheme.
fn are_in_scheme(text: &[u8]) -> bool
    ensures { result ≡ list_all is_in_scheme text.now }
{
    text.iter().all(|byte| is_in_scheme(*byte))
}

/// Whether a byte may occur in a scheme.
fn is_in_scheme(byte: u8) -> bool
    ensures { result ≡ is_in_scheme byte }
{
    byte.is_ascii_alphanumeric() || matches!(byte, b'+' | b'-' | b'.')
}
