// What is printed.

ghost use Rattle.std.specs.Prelude.{◌≤◌};

use std::fmt;
use std::io::Write;

// How many bytes are held back at most.
const BLOCK: usize = 1024;

// Holds back what is printed, so that a line takes few writes. What cannot be written is dropped.
#[derive(Drop)]
pub(crate) struct Output<W> {
    to: W,
    block: [u8; BLOCK],
    // How many bytes of the block are held back.
    held: usize,
    ghost within: { held ≤ 1024 },
}

impl<W: Write> Output<W> {
    pub(crate) fn new(to: W) -> Self {
        Output {
            to,
            block: [0; BLOCK],
            held: 0,
        }
    }

    pub(crate) fn print(&mut self, bytes: &[u8]) {
        if BLOCK - self.held < bytes.len() {
            self.flush();
        }
        match self.block.get_mut(self.held..self.held + bytes.len()) {
            Some(room) => {
                room.copy_from_slice(bytes);
                self.held += bytes.len();
            }
            // More than a block.
            None => {
                let _ = self.to.write_all(bytes);
            }
        }
    }

    pub(crate) fn end_line(&mut self) {
        self.print(b"\n");
        self.flush();
    }

    fn flush(&mut self) {
        let _ = self.to.write_all(&self.block[..self.held]);
        self.held = 0;
    }
}

impl<W: Write> fmt::Write for Output<W> {
    fn write_str(&mut self, text: &str) -> fmt::Result {
        self.print(text.as_bytes());
        Ok(())
    }
}
