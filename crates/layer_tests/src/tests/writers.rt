//! Writers to memory that don't take all that they are given.
use std::alloc::Global;
use std::io;
use std::io::{ErrorKind, Write};

/// A writer whose call number `fails`, from 0, fails, be it a write or a flush.
#[derive(Drop)]
pub(crate) struct Failing {
    pub(crate) text: Vec<u8>,
    pub(crate) calls: u32,
    fails: u32,
    pub(crate) flushes: u32,
}

impl Failing {
    /// Before its first call.
    pub(crate) fn at(alloc: Global, fails: u32) -> Failing {
        Failing {
            text: Vec::new(alloc),
            calls: 0,
            fails,
            flushes: 0,
        }
    }

    /// Counts a call.
    fn called(&mut self) -> io::Result<()> {
        let call = self.calls;
        self.calls = call.saturating_add(1);
        if call == self.fails {
            return Err(io::Error::from(ErrorKind::BrokenPipe));
        }
        Ok(())
    }
}

impl Write for Failing {
    fn write(&mut self, buf: &[u8]) -> io::Result<usize> {
        self.called()?;
        self.text.write(buf)
    }

    fn flush(&mut self) -> io::Result<()> {
        self.called()?;
        self.flushes = self.flushes.saturating_add(1);
        Ok(())
    }
}

/// A writer each of whose writes is interrupted once before it is taken; a full one takes nothing.
#[derive(Drop)]
pub(crate) struct Slow {
    pub(crate) text: Vec<u8>,
    was_interrupted: bool,
    pub(crate) is_full: bool,
}

impl Slow {
    /// Before its first call, with room.
    pub(crate) fn new(alloc: Global) -> Slow {
        Slow {
            text: Vec::new(alloc),
            was_interrupted: false,
            is_full: false,
        }
    }
}

impl Write for Slow {
    fn write(&mut self, buf: &[u8]) -> io::Result<usize> {
        self.was_interrupted = !self.was_interrupted;
        match (self.is_full, self.was_interrupted) {
            (true, _) => Ok(0),
            (false, true) => Err(io::Error::from(ErrorKind::Interrupted)),
            (false, false) => self.text.write(buf),
        }
    }

    fn flush(&mut self) -> io::Result<()> {
        Ok(())
    }
}
