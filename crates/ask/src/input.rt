// The lines that are read.

ghost use Rattle.std.specs.Prelude.{◌≤◌, length};

use std::io::Read;

// How many bytes are asked for at a time.
const BLOCK: usize = 1024;

// The bytes of a reader, one by one.
#[derive(Drop)]
pub(crate) struct Input<R> {
    from: R,
    block: [u8; BLOCK],
    // The bytes of the block that are still to be handed out.
    start: usize,
    end: usize,
    ghost ordered: { start ≤ end },
    ghost within: { end ≤ 1024 },
}

impl<R: Read> Input<R> {
    pub(crate) fn new(from: R) -> Self {
        Input {
            from,
            block: [0; BLOCK],
            start: 0,
            end: 0,
        }
    }

    // The next line with its end, or its front where it does not fit or nothing more can be read.
    pub(crate) fn read_line<'a>(&mut self, line: &'a mut [u8]) -> &'a [u8] {
        for length in 0..line.len() {
            let Some(byte) = self.next() else {
                return &line[..length];
            };
            line[length] = byte;
            if byte == b'\n' {
                return &line[..length + 1];
            }
        }
        line
    }

    // Reads on to the end of the line.
    pub(crate) fn skip_line(&mut self) {
        for _ in 0..u64::MAX {
            if matches!(self.next(), None | Some(b'\n')) {
                return;
            }
        }
    }

    // The next byte. More is read only where all that was read is handed out, so a line is answered before the next is waited for.
    fn next(&mut self) -> Option<u8> {
        if self.start == self.end {
            self.start = 0;
            self.end = read_some(&mut self.from, &mut self.block);
        }
        let byte = *self.block[..self.end].get(self.start)?;
        self.start += 1;
        Some(byte)
    }
}

// One read: how many bytes it gave, none where it fails, as where a signal interrupts it.
fn read_some<R: Read>(from: &mut R, block: &mut [u8]) -> usize
    ensures { result ≤ length block.new }
{
    from.read(block).unwrap_or(0)
}
