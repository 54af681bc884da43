//! Questions about texts of the HTML grammar that no document has, to whose tags attributes are
//! added as to those of a safe text.

ghost use Rattle.std.specs.Prelude.{◌++◌, ◌∷◌, [], codes};

use super::attributed::answer_of;
use super::{Call, no_such_call, word_and_rest};
use md_page::Html;
use std::alloc::{AllocError, Global};

/// The result of a call of `attributed`, which is the argument, for the named text.
pub(super) fn answer(alloc: Global, call: Call<'_>) -> Result<String, AllocError> {
    let (name, argument) = word_and_rest(call.argument);
    let asked = Call { name, argument };
    match call.name {
        "quoted" => answer_of(alloc, &Quoted, asked),
        "labelled" => answer_of(alloc, &Labelled, asked),
        "lined" => answer_of(alloc, &Lined, asked),
        _ => no_such_call(alloc),
    }
}

/// A heading directly after the tag of a quote.
struct Quoted;

impl Html for Quoted {
    ghost text = { λ html. codes "<h1>a</h1>" ++ 10 ∷ codes "<blockquote><h6>b</h6></blockquote>" };

    fn as_str(&self) -> &str {
        "<h1>a</h1>\n<blockquote><h6>b</h6></blockquote>"
    }
}

/// A heading directly after one with an `id`.
struct Labelled;

impl Html for Labelled {
    ghost text = { λ html.
        codes "<h2 id=\"footnote-label\" class=\"sr-only\">a</h2><h3>b</h3>" };

    fn as_str(&self) -> &str {
        "<h2 id=\"footnote-label\" class=\"sr-only\">a</h2><h3>b</h3>"
    }
}

/// Headings before and after one with an `id`, the last with line endings in it.
struct Lined;

impl Html for Lined {
    ghost text = { λ html. codes "<h1>a</h1><h2 id=\"b\">c</h2><h2>d &amp; <em>e"
        ++ 13 ∷ codes "</em>" ++ 10 ∷ codes "f<img src=\"\" alt=\"g\" /></h2>" };

    fn as_str(&self) -> &str {
        "<h1>a</h1><h2 id=\"b\">c</h2><h2>d &amp; <em>e\r</em>\nf<img src=\"\" alt=\"g\" /></h2>"
    }
}
