//! Where lines of a log are kept, to be compared.

use std::alloc::Global;
use std::cell::RefCell;
use std::fmt::{Display, Write};
use std::io;

/// Where lines are kept.
#[derive(Drop)]
pub(crate) struct Paper {
    text: RefCell<String>,
}

impl Print for Paper {
    fn print<D: Display + Drop>(&self, value: D) -> io::Result<()> {
        let Ok(mut text) = self.text.try_borrow_mut() else {
            return Ok(());
        };
        let _ = write!(text, "{value}");
        Ok(())
    }

    fn println<D: Display + Drop>(&self, value: D) -> io::Result<()> {
        let Ok(mut text) = self.text.try_borrow_mut() else {
            return Ok(());
        };
        let _ = writeln!(text, "{value}");
        Ok(())
    }

    fn write_all(&self, _bytes: &[u8]) -> io::Result<()> {
        Ok(())
    }
}

impl Paper {
    /// No line so far.
    pub(crate) fn new(alloc: Global) -> Paper {
        Paper {
            text: RefCell::new(String::new(alloc)),
        }
    }

    /// Whether these are the lines so far.
    pub(crate) fn has(&self, lines: &str) -> bool {
        match self.text.try_borrow() {
            Ok(text) => text.as_str() == lines,
            Err(_) => false,
        }
    }
}
