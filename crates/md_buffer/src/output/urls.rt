//! Writes escaped texts and URLs.

ghost use Rattle.std.specs.Prelude.{◌≡◌, ◌<◌, ◌++◌, OnOk};
ghost use Rattle.std.specs.Prelude.{map};
ghost use Rattle.md_text.specs.Encode.{encoded};
ghost use Rattle.md_text.specs.Url.{sanitized, sanitized_with};

use super::{Output, empty};
use md_text::{push_encoded, push_sanitized, push_sanitized_with_protocols};
use std::alloc::AllocError;

impl Output {
    /// Writes a text, escaped if `escaping` is set, and without NUL in any case.
    ///
    /// # Errors
    ///
    /// Returns an error only if memory runs out.
    #[inline(always)]
    pub fn put_encoded(&mut self, text: &str, escaping: bool) -> Result<(), AllocError>
        ensures { OnOk result (self.new ≡ record {
          text = self.old.text ++ encoded escaping text.now;
          below = self.old.below;
        }) }
    {
        push_encoded(&mut self.bytes, text, escaping)?;
        Ok(())
    }

    /// Writes a URL, normalized and escaped. If memory runs out, no text remains, and so no partial
    /// URL.
    ///
    /// # Errors
    ///
    /// Returns an error only if memory runs out.
    pub fn put_sanitized(&mut self, url: &str) -> Result<(), AllocError>
        ensures { OnOk result (self.new ≡ record {
          text = self.old.text ++ sanitized url.now;
          below = self.old.below;
        }) }
    {
        match push_sanitized(&mut self.bytes, url) {
            Ok(()) => Ok(()),
            Err(error) => {
                empty(
                    &mut self.bytes,
                    &mut self.heads,
                    &mut self.waiting,
                    &mut self.start,
                    &mut self.outers,
                );
                Err(error)
            }
        }
    }

    /// Writes a URL likewise, or nothing if its protocol isn't among these. If memory runs out, no
    /// text remains.
    ///
    /// # Errors
    ///
    /// Returns an error only if memory runs out.
    pub fn put_sanitized_with_protocols(
        &mut self,
        url: &str,
        protocols: &[&str],
    ) -> Result<(), AllocError>
        ensures { OnOk result (self.new ≡ record {
          text = self.old.text
              ++ sanitized_with (map (λ protocol. protocol.now) protocols.now) url.now;
          below = self.old.below;
        }) }
    {
        match push_sanitized_with_protocols(&mut self.bytes, url, protocols) {
            Ok(()) => Ok(()),
            Err(error) => {
                empty(
                    &mut self.bytes,
                    &mut self.heads,
                    &mut self.waiting,
                    &mut self.start,
                    &mut self.outers,
                );
                Err(error)
            }
        }
    }
}
