//! A standard error for tests.

use std::alloc::Global;
use std::cell::Cell;
use std::fmt::Display;
use std::io;

/// What was told.
#[derive(Drop)]
pub(crate) struct Told {
    alloc: Global,
    text: Cell<String>,
}

impl Told {
    /// Nothing yet.
    pub(crate) fn new(alloc: Global) -> Told {
        Told {
            alloc,
            text: Cell::new(String::new(alloc)),
        }
    }

    /// All of it, which is then gone.
    pub(crate) fn text(&self) -> String {
        self.text.replace(String::new(self.alloc))
    }
}

impl Eprint for Told {
    fn eprint<D: Display + Drop>(&self, value: D) -> io::Result<()> {
        let before = self.text();
        self.text.set(format!(in self.alloc; "{before}{value}")?);
        Ok(())
    }

    fn eprintln<D: Display + Drop>(&self, value: D) -> io::Result<()> {
        let before = self.text();
        self.text.set(format!(in self.alloc; "{before}{value}\n")?);
        Ok(())
    }
}
