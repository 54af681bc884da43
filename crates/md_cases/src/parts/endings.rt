//! Questions about a document that is a line ending, or one in JSON.

use super::{Asked, Call, document, no_such_call};
use md_html::LineEnding;
use std::alloc::{AllocError, Global};

/// The result of a call.
pub(super) fn answer(
    alloc: Global,
    asked: &Asked<'_>,
    call: Call<'_>,
) -> Result<String, AllocError> {
    match call.name {
        "parse" => parse(alloc, document(asked)),
        "default" => format!(in alloc; "{:?}", LineEnding::default()),
        "to_json" => to_json(alloc, document(asked)),
        "from_json" => from_json(alloc, document(asked)),
        _ => no_such_call(alloc),
    }
}

/// The name of a text's line ending, and its text.
fn parse(alloc: Global, text: &str) -> Result<String, AllocError> {
    match text.parse::<LineEnding>() {
        Ok(ending) => format!(in alloc; "{ending:?} [{}]", ending.as_str()),
        Err(error) => format!(in alloc; "{error}"),
    }
}

/// The JSON of a text's line ending.
fn to_json(alloc: Global, text: &str) -> Result<String, AllocError> {
    match text.parse::<LineEnding>() {
        Ok(ending) => match serde_json::to_string(alloc, &ending) {
            Ok(json) => Ok(json),
            Err(_) => no_json(alloc),
        },
        Err(error) => format!(in alloc; "{error}"),
    }
}

/// The line ending of a JSON text.
fn from_json(alloc: Global, json: &str) -> Result<String, AllocError> {
    match serde_json::from_str::<LineEnding>(alloc, json) {
        Ok(ending) => format!(in alloc; "{ending:?}"),
        Err(_) => no_json(alloc),
    }
}

fn no_json(alloc: Global) -> Result<String, AllocError> {
    String::from_str(alloc, "refused")
}
