//! A reader and a writer of one byte a call.
use std::io;
use std::io::{ErrorKind, Read, Write};

/// A reader of one byte a call, of which one fails. After its bytes it reads none.
#[derive(Drop)]
pub(crate) struct Dribble {
    pub(crate) bytes: Vec<u8>,
    /// How many calls were made.
    pub(crate) calls: usize,
    /// The number of the call that fails, from 0.
    pub(crate) failing: usize,
}

impl Read for Dribble {
    fn read(&mut self, buf: &mut [u8]) -> io::Result<usize> {
        let call = self.calls;
        self.calls = call.saturating_add(1);
        if call == self.failing {
            return Err(io::Error::new(ErrorKind::Other, "a fault"));
        }
        match self.bytes.get(call) {
            Some(byte) => {
                if buf.is_empty() {
                    return Ok(0);
                }
                buf[0] = *byte;
                Ok(1)
            }
            None => Ok(0),
        }
    }
}

/// A writer of one byte a call, of which one fails.
#[derive(Drop)]
pub(crate) struct Trickle {
    pub(crate) held: Vec<u8>,
    /// The number of the call that fails, from 0.
    pub(crate) failing: usize,
    /// Whether that call takes nothing, in place of an error.
    pub(crate) is_mute: bool,
}

impl Write for Trickle {
    fn write(&mut self, buf: &[u8]) -> io::Result<usize> {
        if self.held.len() == self.failing {
            if self.is_mute {
                return Ok(0);
            }
            return Err(io::Error::new(ErrorKind::Other, "a fault"));
        }
        match buf.first() {
            Some(byte) => match self.held.push(*byte) {
                Ok(()) => Ok(buf.len().min(1)),
                Err(_) => Err(io::Error::new(ErrorKind::OutOfMemory, "no room")),
            },
            None => Ok(0),
        }
    }

    fn flush(&mut self) -> io::Result<()> {
        Ok(())
    }
}
