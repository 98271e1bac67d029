//! A slow pipe, with one byte per call, signals and failures.

use std::alloc::Global;
use std::io::{self, ErrorKind, Read, Write};

#[derive(Drop)]
pub(crate) struct Slow<'a> {
    /// The bytes of later reads, and whether a read after these bytes fails.
    pub(crate) left: &'a [u8],
    pub(crate) fails: bool,
    /// The written bytes, the room for them, and whether a flush succeeds.
    pub(crate) taken: Vec<u8>,
    pub(crate) room: usize,
    pub(crate) flushes: bool,
    /// The number of signals before each call, and the number of signals since the last call.
    pub(crate) signals: u8,
    came: u8,
}

impl<'a> Slow<'a> {
    pub(crate) fn new(alloc: Global, left: &'a [u8]) -> Slow<'a> {
        Slow {
            left,
            fails: false,
            taken: Vec::new(alloc),
            room: usize::MAX,
            flushes: true,
            signals: 1,
            came: 0,
        }
    }

    pub(crate) fn failing(alloc: Global, left: &'a [u8]) -> Slow<'a> {
        let mut slow = Slow::new(alloc, left);
        slow.fails = true;
        slow
    }

    fn is_interrupted(&mut self) -> bool {
        self.came = if self.came < self.signals {
            self.came + 1
        } else {
            0
        };
        self.came != 0
    }
}

impl Read for Slow<'_> {
    fn read(&mut self, buf: &mut [u8]) -> io::Result<usize> {
        if self.is_interrupted() {
            return Err(io::Error::from(ErrorKind::Interrupted));
        }
        match self.left.split_first() {
            Some((byte, rest)) if !buf.is_empty() => {
                buf[0] = *byte;
                self.left = rest;
                Ok(1)
            }
            _ if self.fails => Err(io::Error::from(ErrorKind::ConnectionReset)),
            _ => Ok(0),
        }
    }
}

impl Write for Slow<'_> {
    fn write(&mut self, buf: &[u8]) -> io::Result<usize> {
        if self.is_interrupted() {
            return Err(io::Error::from(ErrorKind::Interrupted));
        }
        match buf.first() {
            None => Ok(0),
            Some(_) if self.taken.len() >= self.room => {
                Err(io::Error::from(ErrorKind::StorageFull))
            }
            Some(byte) => match self.taken.push(*byte) {
                Ok(()) => Ok(1),
                Err(_) => Err(io::Error::from(ErrorKind::OutOfMemory)),
            },
        }
    }

    fn flush(&mut self) -> io::Result<()> {
        if self.is_interrupted() {
            return Err(io::Error::from(ErrorKind::Interrupted));
        }
        if self.flushes {
            Ok(())
        } else {
            Err(io::Error::from(ErrorKind::BrokenPipe))
        }
    }
}
