//! The messages of the errors of `serve`.

use md_html::{CompileError, Rule};
use md_script::{RunError, ServeError};
use std::alloc::{AllocError, Global};

/// Whether each error has its status and its line.
pub(super) fn have_messages(alloc: Global) -> Result<bool, AllocError> {
    Ok(
        serve_errors_say(alloc)?
            && run_errors_say(alloc)?
            && CompileError::Memory.to_string(alloc)?.as_str() == "out of memory",
    )
}

/// Errors of `serve`, with their statuses and their lines.
static SERVE_ERRORS: [(ServeError, u8, &str); 4] = [
    (ServeError::Run(RunError::Memory), 3, "out of memory"),
    (ServeError::Run(RunError::Line(4)), 2, "line 4: unreadable"),
    (ServeError::Input, 4, "input or output failed"),
    (ServeError::Output, 4, "input or output failed"),
];

/// Errors of `run`, likewise.
static RUN_ERRORS: [(RunError, u8, &str); 3] = [
    (RunError::Memory, 3, "out of memory"),
    (RunError::Line(4), 2, "line 4: unreadable"),
    (
        RunError::Event {
            index: 3,
            rule: Rule::Place,
        },
        1,
        "event 3: Place",
    ),
];

/// Whether each error of `serve` has its status and its line.
fn serve_errors_say(alloc: Global) -> Result<bool, AllocError> {
    for (error, status, message) in &SERVE_ERRORS {
        if !serve_says(alloc, error, *status, message)? {
            return Ok(false);
        }
    }
    Ok(true)
}

/// Whether each error of `run` has its status and its line.
fn run_errors_say(alloc: Global) -> Result<bool, AllocError> {
    for (error, status, message) in &RUN_ERRORS {
        if !run_says(alloc, error, *status, message)? {
            return Ok(false);
        }
    }
    Ok(true)
}

/// Whether an error of `serve` has this status and this line.
fn serve_says(
    alloc: Global,
    error: &ServeError,
    status: u8,
    message: &str,
) -> Result<bool, AllocError> {
    Ok(error.status() == status && error.to_string(alloc)?.as_str() == message)
}

/// Whether an error of `run` has this status and this line.
fn run_says(
    alloc: Global,
    error: &RunError,
    status: u8,
    message: &str,
) -> Result<bool, AllocError> {
    Ok(error.status() == status && error.to_string(alloc)?.as_str() == message)
}
