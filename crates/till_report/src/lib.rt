// What the till program does with its input: reads it, and prints the report's lines. The program and its stored cases share it. 01,
// "The till program reads standard input (at most 60,000 bytes)".
#![tactic(auto)]

ghost use Rattle.std.specs.Prelude.{◌+◌, ◌≤◌, ◌<◌, OnOk, IfSome, Some, length, take};
ghost use Rattle.std.specs.Io.KnownBytes.{Appends, Consumes, IsAtEnd};
ghost use Rattle.field_table.specs.House.{house};
ghost use Rattle.message_notes.specs.Dialect.{dialect};
ghost use Rattle.till_lines.specs.Lines.{input_most, report_of};

use std::io;
use std::io::{Read, Write};

// Reads to the end, or one byte further than a report takes, and prints the report of what was read. It cannot fail: a read that fails counts
// as the end, and what cannot be printed is dropped (docs/DECISIONS.md, T5).
pub fn print_report<R: Read, W: Write>(from: &mut R, to: &mut W) {
    let _ = try_print_report(from, to);
}

// The same, and tells whether a read or a write failed: where a read did, the report is printed, and then the error answered.
pub fn try_print_report<R: Read, W: Write>(from: &mut R, to: &mut W) -> io::Result<()>
    ensures reads { OnOk result (IfSome (R.remaining from.old) (λ xs. Consumes (Some xs) (R.remaining from.new) (take (input_most + 1) xs))) }
    ensures prints { OnOk result (IfSome (R.remaining from.old) (λ xs. Appends (W.contents to.old) (W.contents to.new) (report_of (dialect house) xs))) }
{
    let mut input = [0u8; till_lines::INPUT_ROOM];
    let (n, end) = read_full(from, &mut input);
    print_lines(&input[..n], to)?;
    end
}

// Prints the report of an input.
fn print_lines<W: Write>(input: &[u8], to: &mut W) -> io::Result<()>
    ensures { OnOk result (Appends (W.contents to.old) (W.contents to.new) (report_of (dialect house) input.now)) }
{
    let mut text = [0u8; till_lines::TEXT_ROOM];
    let length = till_lines::report(input, &mut text);
    to.write_all(&text[..length])
}

// Reads until buf is full, the input ends or a read fails, and answers how many bytes it put at the front of buf, and that failure: both,
// since the bytes before a failure count (docs/DECISIONS.md, T5).
// By index: `read_exact` does not say how many bytes it put, and `read_to_end` fills a Vec, where memory here is fixed.
fn read_full<R: Read>(from: &mut R, buf: &mut [u8]) -> (usize, io::Result<()>)
    ensures within { result.0 ≤ length buf.new }
    ensures bytes { Consumes (R.remaining from.old) (R.remaining from.new) (take result.0 buf.new) }
    ensures end { OnOk result.1 (result.0 < length buf.new → IsAtEnd (R.remaining from.new)) }
{
    let mut done = 0;
    while done < buf.len() {
        match from.read(&mut buf[done..]) {
            Ok(0) => break,
            Ok(n) => done += n,
            Err(why) => return (done, Err(why)),
        }
    }
    (done, Ok(()))
}
