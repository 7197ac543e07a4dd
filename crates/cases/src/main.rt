//! Reads files of cases, does what they say, and prints what came out. `docs/CASES.md` has the language.
//!
//! The words of the program are the files, in their order. A line that is none of the language ends the
//! program with status 1, and so does a file that cannot be read or does not end with its count of cases.
#![tactic(auto)]

mod files;
mod program_verbs;

use case_lines::{Fault, Lines, State};
use files::Progress;
use std::io::Write;
use std::process::ExitCode;
use std::{env, fs, io};

fn main(rt: HostRuntime) -> io::Result<ExitCode> {
    let files = run_all(&rt)?;
    if files == Some(0) {
        println!(rt; "no files")?;
    }
    Ok(match files {
        Some(files) if files > 0 => ExitCode::SUCCESS,
        _ => ExitCode::FAILURE,
    })
}

/// Runs the files that the words name, and tells how many; None where one is not done.
fn run_all(rt: &HostRuntime) -> io::Result<Option<u64>> {
    let mut state = State::new(rt.alloc());
    run_files(rt, &mut state)
}

fn run_files(rt: &HostRuntime, state: &mut State) -> io::Result<Option<u64>> {
    let mut files = 0_u64;
    for path in env::args(rt)?.skip(1) {
        if !run_file(rt, state, path.as_str())? {
            return Ok(None);
        }
        files = files.saturating_add(1);
    }
    Ok(Some(files))
}

/// Runs a file, and prints what came out. It is false where the file is not done, and then its name is told, with the
/// line, or that it cannot be read.
fn run_file(rt: &HostRuntime, state: &mut State, path: &str) -> io::Result<bool> {
    let Ok(text) = fs::read(rt, path) else {
        println!(rt; "{path}: cannot be read")?;
        return Ok(false);
    };
    let mut out = Lines::new(rt.alloc());
    let mut progress = Progress::new(rt.alloc());
    let done = progress.read(state, &text, &mut out);
    rt.stdout().write_all(out.text())?;
    match fault_of(done, out.is_whole()) {
        Some(fault) => {
            tell(rt, path, progress.line, fault)?;
            Ok(false)
        }
        None => Ok(true),
    }
}

/// Why a file is not done. Where what is printed is not whole, memory was refused.
fn fault_of(done: Result<(), Fault>, is_whole: bool) -> Option<Fault> {
    match done {
        Ok(()) if is_whole => None,
        Ok(()) => Some(Fault::NoMemory),
        Err(fault) => Some(fault),
    }
}

fn tell(rt: &HostRuntime, path: &str, line: u64, fault: Fault) -> io::Result<()> {
    let why = fault.text();
    println!(rt; "{path}:{line}: {why}")
}
