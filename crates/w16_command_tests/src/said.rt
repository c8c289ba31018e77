//! A standard error that keeps what is said on it.
use std::alloc::Global;
use std::cell::RefCell;
use std::fmt::{Display, Write};
use std::io::{Error, Result};

/// What was said so far.
#[derive(Drop)]
pub struct Said(RefCell<String>);

impl Said {
    /// Nothing yet.
    pub fn new(alloc: Global) -> Self {
        Said(RefCell::new(String::new(alloc)))
    }

    /// Whether this was said, and no more.
    pub fn is(&self, text: &str) -> bool {
        match self.0.try_borrow() {
            Ok(said) => said.as_str() == text,
            Err(_) => false,
        }
    }
}

impl Eprint for Said {
    fn eprint<D: Display + Drop>(&self, value: D) -> Result<()> {
        match self.0.try_borrow_mut() {
            Ok(mut said) => Ok(write!(said, "{value}")?),
            Err(_) => Err(Error::other("lent")),
        }
    }

    fn eprintln<D: Display + Drop>(&self, value: D) -> Result<()> {
        self.eprint(value)?;
        self.eprint("\n")
    }
}
