//! A connection of which the two directions are apart.

use std::io;
use std::io::{Read, Write};

/// What comes in, and what goes out.
#[derive(Drop)]
pub struct StdConnection<R, W> {
    pub input: R,
    pub output: W,
}

impl<R: Read, W> Read for StdConnection<R, W> {
    fn read(&mut self, bytes: &mut [u8]) -> io::Result<usize> {
        self.input.read(bytes)
    }
}

impl<R, W: Write> Write for StdConnection<R, W> {
    fn write(&mut self, bytes: &[u8]) -> io::Result<usize> {
        self.output.write(bytes)
    }

    fn flush(&mut self) -> io::Result<()> {
        self.output.flush()
    }
}
