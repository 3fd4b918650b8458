//! Where a text is read from.
use std::io::{self, ErrorKind, Read};

/// Standard input, a file, or a file that isn't there.
#[derive(Drop)]
pub(crate) enum Text<I, F> {
    Input(I),
    File(F),
    /// Each read fails.
    Missing,
}

impl<I: Read, F: Read> Read for Text<I, F> {
    fn read(&mut self, buf: &mut [u8]) -> io::Result<usize> {
        match self {
            Text::Input(input) => input.read(buf),
            Text::File(file) => file.read(buf),
            Text::Missing => Err(io::Error::from(ErrorKind::NotFound)),
        }
    }
}
