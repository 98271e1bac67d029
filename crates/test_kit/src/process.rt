//! A test double of a process. The double records the text that the process prints on standard
//! error.

use std::alloc::Global;
use std::cell::RefCell;
use std::env::{Env, FillError};
use std::fmt::Display;
use std::io::{self, ErrorKind};

#[derive(Drop)]
pub struct Process<'a> {
    alloc: Global,
    arguments: &'a [&'a [u8]],
    printed: RefCell<String>,
}

impl<'a> Process<'a> {
    pub fn new(alloc: Global, arguments: &'a [&'a [u8]]) -> Process<'a> {
        Process {
            alloc,
            arguments,
            printed: RefCell::new(String::new(alloc)),
        }
    }

    pub fn into_printed(self) -> String {
        let Process { printed, .. } = self;
        printed.into_inner()
    }
}

impl Alloc for Process<'_> {
    type A = Global;

    fn alloc(&self) -> Global {
        self.alloc
    }
}

impl Env for Process<'_> {
    fn arg(&self, i: usize, buf: &mut [u8]) -> Result<usize, FillError> {
        let Some(argument) = self.arguments.get(i) else {
            return Err(FillError::NotPresent);
        };
        let argument = *argument;
        if buf.len() < argument.len() {
            return Err(FillError::TooLong);
        }
        buf[..argument.len()].copy_from_slice(argument);
        Ok(argument.len())
    }

    fn var(&self, _name: &str, _buf: &mut [u8]) -> Result<usize, FillError> {
        Err(FillError::NotPresent)
    }

    fn var_at(&self, _i: usize, _buf: &mut [u8]) -> Result<usize, FillError> {
        Err(FillError::NotPresent)
    }
}

impl Eprint for Process<'_> {
    fn eprint<D: Display + Drop>(&self, value: D) -> io::Result<()> {
        let Ok(line) = value.to_string(self.alloc) else {
            return Err(io::Error::from(ErrorKind::OutOfMemory));
        };
        let Ok(mut text) = self.printed.try_borrow_mut() else {
            return Err(io::Error::from(ErrorKind::ResourceBusy));
        };
        match text.push_str(line.as_str()) {
            Ok(()) => Ok(()),
            Err(_) => Err(io::Error::from(ErrorKind::OutOfMemory)),
        }
    }

    fn eprintln<D: Display + Drop>(&self, value: D) -> io::Result<()> {
        self.eprint(value)?;
        self.eprint("\n")
    }
}
