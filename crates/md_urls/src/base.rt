//! A base, and URLs resolved against it.

ghost use Rattle.std.specs.Prelude.{◌≡◌, ◌++◌, [], IfOk, not, if◌then◌else◌};
ghost use Rattle.md_urls.specs.Resolved.{resolved, stays};
ghost use Rattle.md_urls.specs.Urls.{parts_of, split};

use crate::parts::Parts;
use crate::path::{merged, without_dots};
use std::alloc::{AllocError, Global};

/// The URL against which others are resolved. If it is relative, the results are relative.
#[derive(Clone, Copy, Debug)]
pub struct Base<'a> {
    /// The URL.
    pub url: &'a str,
    /// Its parts.
    parts: Parts<'a>,
    pub ghost split: { parts_of parts ≡ split url.now },
}

impl<'a> Base<'a> {
    /// Parses a URL as a base.
    pub fn new(url: &'a str) -> Base<'a>
        ensures { result.url.now ≡ url.now }
    {
        Base {
            url,
            parts: Parts::new(url.as_bytes()),
        }
    }

    /// Appends a URL, resolved against this base, to a text; returns whether it changed. A URL with
    /// a scheme, an empty one, and one that is only a fragment stay as they are: then nothing is
    /// appended.
    ///
    /// # Errors
    ///
    /// Returns an error only if memory runs out.
    ///
    /// # Examples
    ///
    /// ```
    /// let base = Base::new("https://a.b/c/d");
    /// let is_other = base.push_resolved(alloc, b"../e", &mut text)?;
    /// // true, and the text ends with `https://a.b/e`
    /// ```
    pub fn push_resolved(
        &self,
        alloc: Global,
        url: &[u8],
        text: &mut Vec<u8>,
    ) -> Result<bool, AllocError>
        ensures changed { IfOk result (λ is_other. is_other ≡ not (stays url.now)) }
        ensures text { IfOk result (λ is_other. text.new.items ≡ text.old.items
            ++ (if is_other then resolved self.now.url.now url.now else [])) }
    {
        let parts = Parts::new(url);
        if parts.scheme.is_some() || matches!(url, [] | [b'#', ..]) {
            return Ok(false);
        }
        let scheme = self.parts.scheme;
        let authority = self.parts.authority;
        if parts.authority.is_some() {
            let path = without_dots(alloc, parts.path)?;
            let path = path.as_slice();
            Parts {
                scheme,
                path,
                ..parts
            }
            .push_onto(text)?;
        } else if parts.path.is_empty() {
            let query = parts.query.or(self.parts.query);
            Parts {
                query,
                fragment: parts.fragment,
                ..self.parts
            }
            .push_onto(text)?;
        } else {
            let path = merged(alloc, &self.parts, parts.path)?;
            let path = path.as_slice();
            Parts {
                scheme,
                authority,
                path,
                ..parts
            }
            .push_onto(text)?;
        }
        Ok(true)
    }
}
