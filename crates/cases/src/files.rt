//! Files of cases, line by line.

use crate::program_verbs;
use case_lines::{Fault, Lines, State, number, tokens};
use case_schedules::Schedules;
use std::alloc::Global;

/// How far a file was read.
#[derive(Drop)]
pub(crate) struct Progress {
    /// The number of the line that is read, from 1.
    pub(crate) line: u64,
    cases: u64,
    /// Whether the last line was read.
    has_ended: bool,
    /// What the lines have said of schedules.
    schedules: Schedules,
}

impl Progress {
    pub(crate) fn new(alloc: Global) -> Progress {
        Progress {
            line: 0,
            cases: 0,
            has_ended: false,
            schedules: Schedules::new(alloc),
        }
    }

    /// Does the lines of a file, and sees that it ends as it has to.
    pub(crate) fn read(
        &mut self,
        state: &mut State,
        text: &[u8],
        out: &mut Lines,
    ) -> Result<(), Fault> {
        for line in text.split(|byte| *byte == b'\n') {
            self.line = self.line.saturating_add(1);
            if line.is_empty() || line.starts_with(b"#") {
                continue;
            }
            if self.has_ended {
                return Err(Fault::End);
            }
            self.obey(state, line, out)?;
        }
        if self.has_ended {
            Ok(())
        } else {
            Err(Fault::End)
        }
    }

    fn obey(&mut self, state: &mut State, line: &[u8], out: &mut Lines) -> Result<(), Fault> {
        if let Some(what) = line.strip_prefix(b"case ") {
            self.cases = self.cases.saturating_add(1);
            state.forget();
            self.schedules.forget(state.alloc);
            out.start("case");
            out.word(what);
            out.end();
            return Ok(());
        }
        let words = tokens(state.alloc, line)?;
        let Some((verb, args)) = words.split_first() else {
            return Err(Fault::Verb);
        };
        if *verb == b"end".as_slice() {
            return self.finish(args);
        }
        match self.schedules.act(state, verb, args, out) {
            Some(done) => done,
            None => act(state, verb, args, out),
        }
    }

    /// The last line, which has the number of cases.
    fn finish(&mut self, args: &[&[u8]]) -> Result<(), Fault> {
        let [cases] = *args else {
            return Err(Fault::Arguments);
        };
        if number(cases)? != self.cases {
            return Err(Fault::End);
        }
        self.has_ended = true;
        Ok(())
    }
}

/// Does what a line says.
fn act(state: &mut State, verb: &[u8], args: &[&[u8]], out: &mut Lines) -> Result<(), Fault> {
    if let Some(done) = case_lines::act(state, verb, args, out) {
        return done;
    }
    if let Some(done) = case_houses::act(state, verb, args, out) {
        return done;
    }
    if let Some(done) = case_wallets::act(state, verb, args, out) {
        return done;
    }
    match program_verbs::act(state, verb, args, out) {
        Some(done) => done,
        None => Err(Fault::Verb),
    }
}
