//! Reads a script from a reader, and writes its text to a writer.

ghost use Rattle.std.specs.Prelude.{◌≡◌, ◌<◌, IfOk, OnOk, IfErr, length};
ghost use Rattle.std.specs.Io.KnownBytes.{Appends};
ghost use Rattle.md_script.specs.Serve.{IsReadWhole, IsServed, ExplainsServe, IsUnwritten};
ghost use Rattle.md_script.specs.Serve.{IsCutOff, IsBeforeRun};
ghost use Rattle.md_script.specs.declared.serving.ServeError.TheVariants as error;

use crate::error::RunError;
use crate::running::run;
use std::alloc::{AllocError, Global};
use std::fmt;
use std::io::{Read, Write};
use thiserror::Error;

/// The maximum number of reads.
const MOST_READS: u32 = 16_777_216;

/// The maximum number of bytes of one read.
const READ_SIZE: usize = 65_536;

/// Why a script wasn't served.
#[derive(Debug, PartialEq, Eq, Drop, Error)]
pub enum ServeError {
    /// The script has no text, or memory ran out.
    Run(RunError),
    /// Reading failed, or 16,777,216 reads didn't reach the end.
    Input,
    /// Writing failed; a prefix of the text may have been written.
    Output,
}

impl ServeError {
    ghost use Rattle.std.specs.Prelude.{◌≡◌};
    ghost use Rattle.md_script.specs.Serve.{serve_status};

    /// Returns the exit status of a program: that of the script's error, 4 if reading or writing
    /// failed.
    ///
    /// # Examples
    ///
    /// ```
    /// assert_eq!(ServeError::Run(RunError::Line(1)).status(), 2);
    /// assert_eq!(ServeError::Input.status(), 4);
    /// ```
    pub fn status(&self) -> u8
        ensures { result ≡ serve_status self.now }
    {
        match self {
            ServeError::Run(error) => error.status(),
            ServeError::Input | ServeError::Output => 4,
        }
    }
}

impl fmt::Display for ServeError {
    ghost use Rattle.std.specs.Prelude.{Some};
    ghost use Rattle.md_script.specs.Serve.{serve_message};

    ghost output = { λ error. Some (serve_message error) };

    fn fmt<W: fmt::Write>(&self, f: &mut fmt::Formatter<W>) -> fmt::Result {
        match self {
            ServeError::Run(error) => fmt::Display::fmt(error, f),
            ServeError::Input | ServeError::Output => f.write_str("input or output failed"),
        }
    }
}

impl From<RunError> for ServeError {
    ghost use Rattle.std.specs.Prelude.{◌≡◌};
    ghost use Rattle.md_script.specs.declared.serving.ServeError.TheVariants.{Run};

    ghost from_gives = { λ cause error. error ≡ Run cause };

    fn from(error: RunError) -> ServeError {
        ServeError::Run(error)
    }
}

impl From<AllocError> for ServeError {
    ghost use Rattle.std.specs.Prelude.{◌≡◌};
    ghost use Rattle.md_script.specs.declared.serving.ServeError.TheVariants.{Run};
    ghost use Rattle.md_script.specs.declared.error.RunError.TheVariants.{Memory};

    ghost from_gives = { λ _ error. error ≡ Run Memory };

    fn from(_error: AllocError) -> ServeError {
        ServeError::Run(RunError::Memory)
    }
}

/// Reads a script to its end, runs it, and writes its text.
///
/// Failed reads and writes are reported, not retried, even if they were `Interrupted`.
///
/// # Errors
///
/// `ServeError::Run` if the script has no text, or memory runs out; `ServeError::Input` if a read
/// fails, or 16,777,216 reads don't reach the end. In both cases nothing was written.
/// `ServeError::Output` if a write fails; then a prefix of the text was written, or nothing.
///
/// # Examples
///
/// ```
/// let mut reader = b"+ThematicBreak 0\n-ThematicBreak 3\n--\n***\n".as_slice();
/// let mut text = Vec::new(alloc);
/// serve(alloc, &mut reader, &mut text)?;
/// assert_eq!(text.as_slice(), b"<hr />".as_slice());
/// ```
pub fn serve<R: Read, W: Write>(
    alloc: Global,
    reader: &mut R,
    writer: &mut W,
) -> Result<(), ServeError>
    ensures ok { OnOk result
        (IsServed (R.remaining reader.old) (R.remaining reader.new) (W.contents writer.old)
        (W.contents writer.new)) }
    ensures err { IfErr result (ExplainsServe (R.remaining reader.old) (R.remaining reader.new)) }
    ensures unwritten { IfErr result (IsUnwritten
        (R.remaining reader.old) (R.remaining reader.new) (W.contents writer.old)
        (W.contents writer.new)) }
{
    let input = read_input(alloc, reader)?;
    let text = run(alloc, input.as_slice())?;
    write_text(writer, text.as_bytes())
}

/// Reads the whole input.
///
/// # Errors
///
/// `ServeError::Input` if a read fails, or 16,777,216 reads don't reach the end, and
/// `ServeError::Run` if memory runs out.
///
/// # Examples
///
/// ```
/// let mut reader = b"--\n".as_slice();
/// let input = read_input(alloc, &mut reader)?;
/// assert_eq!(input.as_slice(), b"--\n".as_slice());
/// ```
pub fn read_input<R: Read>(alloc: Global, reader: &mut R) -> Result<Vec<u8>, ServeError>
    ensures ok { IfOk result
        (λ input. IsReadWhole (R.remaining reader.old) (R.remaining reader.new) input.items) }
    ensures err { IfErr result IsBeforeRun }
{
    let mut input = Vec::new(alloc);
    let mut buffer = buffer(alloc)?;
    for _ in 0..MOST_READS {
        let Ok(count) = reader.read(&mut buffer) else {
            return Err(ServeError::Input);
        };
        if count == 0 {
            return Ok(input);
        }
        input.extend_from_slice(&buffer[..count])?;
    }
    Err(ServeError::Input)
}

/// Allocates the buffer of one read.
fn buffer(alloc: Global) -> Result<Vec<u8>, AllocError>
    ensures { IfOk result (λ room. 0 < length room.items) }
{
    vec![in alloc; 0u8; READ_SIZE]
}

/// Writes a whole text.
fn write_text<W: Write>(writer: &mut W, text: &[u8]) -> Result<(), ServeError>
    ensures ok { OnOk result (Appends (W.contents writer.old) (W.contents writer.new) text.now) }
    ensures err { IfErr result (λ e. e ≡ error.Output) }
    ensures cut_off { IfErr result
        (λ _. IsCutOff (W.contents writer.old) (W.contents writer.new) text.now) }
{
    let mut rest = text;
    while !rest.is_empty() {
        match writer.write(rest) {
            Ok(0) | Err(_) => return Err(ServeError::Output),
            Ok(count) => rest = &rest[count..],
        }
    }
    match writer.flush() {
        Ok(()) => Ok(()),
        Err(_) => Err(ServeError::Output),
    }
}
