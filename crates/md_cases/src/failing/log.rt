//! The log of the calls.

use std::io;

/// The result of a call; if it runs out of memory, that of a second call.
macro_rules! again {
    ($log:expr, $want:pat, $call:expr) => {
        match $call {
            $want => {
                $log.refuse();
                $call
            }
            answer => answer,
        }
    };
}

pub(crate) use again;

/// The log of the calls.
#[derive(Drop)]
pub struct Log {
    /// How many calls ran out of memory.
    pub refusals: usize,
    /// The first call with a wrong result, and its input.
    pub wrong: Option<(&'static str, &'static str)>,
}

impl Log {
    /// Records that a call ran out of memory.
    pub fn refuse(&mut self) {
        self.refusals = self.refusals.saturating_add(1);
    }

    /// Records a call, unless its result is right, and its input. The first one is kept.
    pub fn tell(&mut self, is_right: bool, call: &'static str, asked: &'static str) {
        if !is_right && self.wrong.is_none() {
            self.wrong = Some((call, asked));
        }
    }

    /// Prints the wrong call, if there is one, and that each call was made. Only one request is
    /// refused in a run, so at most one call may run out of memory.
    pub fn close<R: Print>(&self, rt: &R) -> io::Result<()> {
        if self.refusals > 1 {
            println!(rt; "wrong: {} calls wanted memory", self.refusals)?;
        }
        if let Some((call, asked)) = self.wrong {
            println!(rt; "wrong: {call} of {asked}")?;
        }
        println!(rt; "each call was made")
    }
}
