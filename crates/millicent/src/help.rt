//! Words that ask for help.

use command_help::page_of;
use diagnostics::tell_fault;
use std::io::Write;

/// Whether the words ask for a page of help, or for the version.
pub(crate) fn is_asked(words: &[String]) -> bool {
    page_of(words).is_some()
}

/// Prints the page that the words ask for, and answers the status.
pub(crate) fn print(rt: &HostRuntime, words: &[String]) -> u8 {
    let Some(page) = page_of(words) else {
        return 0;
    };
    let Ok(text) = format!(in rt.alloc(); "{page}") else {
        let _ = rt.stdout().write_all(b"no memory\n");
        return 5;
    };
    match rt.stdout().write_all(text.as_bytes()) {
        Ok(()) => 0,
        Err(error) => {
            tell_fault(rt, "standard output", Some(error));
            6
        }
    }
}
