//! A writer that is interrupted at its second call and takes nothing at its fourth.

use std::io;
use std::io::Write;

/// A writer that takes one byte a call; the second call is interrupted, and the fourth takes
/// nothing.
#[derive(Drop)]
pub struct StutteringWriter {
    pub calls: u8,
}

impl Write for StutteringWriter {
    fn write(&mut self, part: &[u8]) -> io::Result<usize> {
        self.calls = self.calls.saturating_add(1);
        match self.calls {
            2 => Err(io::ErrorKind::Interrupted.into()),
            4 => Ok(0),
            _ => Ok(part.len().min(1)),
        }
    }

    fn flush(&mut self) -> io::Result<()> {
        Ok(())
    }
}
