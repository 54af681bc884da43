//! Compiles an event script from standard input, and writes its HTML to standard output, with
//! nothing added. Arguments are ignored.
//!
//! If there is no HTML, it writes one line to standard error, and exits with status 1 for an event
//! that is refused, 2 for an invalid line, 3 if memory runs out, and 4 if reading or writing fails.
#![tactic(auto)]

use md_script::serve;
use std::io::writer;
use std::process::ExitCode;

fn main(rt: HostRuntime) -> ExitCode {
    match serve(rt.alloc(), &mut rt.reader(), &mut writer(&rt)) {
        Ok(()) => ExitCode::SUCCESS,
        Err(error) => {
            let status = error.status();
            let _ = rt.eprintln(error);
            ExitCode::from(status)
        }
    }
}
