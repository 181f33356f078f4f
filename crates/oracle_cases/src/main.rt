// Replays a sample of the comparison with the Rust crate iso8583-core 0.1.0. Each line of the input is a case, and each line printed is
// the answer here. The stored output is what the Rust crate answered: oracle/README.md says how both files are made.
#![tactic(auto)]

ghost use Rattle.std.specs.Prelude.{◌<◌, ◌≤◌};

use bitmap::FieldSet;
use encoding_length::Encoding;
use message_reader::Accepted;
use refusal::{Cause, Refusal};
use std::io::{Cursor, Read, Write};
use std::{fmt, io};

// The most cases that are run.
const CASES: usize = 100_000;

// The most bytes of an input, and of what is written.
const ROOM: usize = 1200;

// The most bytes of a case behind its front: two for each byte of the input, and the end of the line.
const TEXT_ROOM: usize = 2 * ROOM + 1;

// The notes of any message fit in this.
const NOTES_ROOM: usize = 1531;

// What is printed of any case fits in this.
const LINE_ROOM: usize = 4096;

// A case: a letter for its kind, an argument, and the input, the first `size` bytes of `room`. One whose line is cut is the last.
#[derive(Drop)]
struct Case {
    kind: u8,
    argument: u8,
    room: [u8; ROOM],
    size: usize,
    is_cut: bool,
    ghost fits: { size ≤ 1200 },
}

impl Case {
    fn input(&self) -> &[u8] {
        &self.room[..self.size]
    }
}

// What a line says of a case. Refusals are cases of it: by its kind a line says that alone, or with a field or a number.
#[derive(Drop)]
enum Answer<'a> {
    Good,
    Refused,
    // For a field, or by a number.
    RefusedFor(usize),
    Length(usize),
    Written(Written<'a>),
    Cleaned(Written<'a>, [u8; 24]),
    // Every field that one bitmap holds is told.
    Read {
        used: usize,
        bitmaps: usize,
        message: &'a [u8],
        notes: &'a [u8],
    },
}

// The bytes that were written, where it was not refused.
#[derive(Drop)]
struct Written<'a>(Option<&'a [u8]>);

#[derive(Drop)]
struct Hex<'a>(&'a [u8]);

// The status is 0 whatever is read, and whatever cannot be printed.
fn main(rt: HostRuntime) {
    replay(&mut rt.stdin(), &mut io::writer(&rt));
}

// Answers each case before it reads the next, and takes from the input what is the cases' and no more.
fn replay<R: Read, W: Write>(from: &mut R, to: &mut W) {
    for _ in 0..CASES {
        let Some(case) = read_case(from) else {
            return;
        };
        print_answer(&case, to);
        if case.is_cut {
            return;
        }
    }
}

// Reads the next case, if there is one: a letter, then in hexadecimal the input's size (two bytes), an argument (one) and the input.
fn read_case<R: Read>(from: &mut R) -> Option<Case> {
    let mut front = [0u8; 9];
    if !fill(from, &mut front) {
        return None;
    }
    let mut numbers = [0u8; 3];
    decode_hex(&front[2..8], &mut numbers);
    let [high, low, argument] = numbers;
    let size = usize::from(u16::from_be_bytes([high, low]));
    if size > ROOM {
        return None;
    }
    // Of a line that is cut, what is missing counts as zeros.
    let mut text = [0u8; TEXT_ROOM];
    let line = &mut text[..2 * size + 1];
    let is_cut = !fill(from, line);
    let mut room = [0u8; ROOM];
    decode_hex(line, &mut room[..size]);
    Some(Case {
        kind: front[0],
        argument,
        room,
        size,
        is_cut,
    })
}

// Reads until buf is full, the input ends or a read fails, and answers whether it is full. What was read before a failure stays in buf.
// By index: `read_exact` says nothing of the bytes before a failure, and they count.
fn fill<R: Read>(from: &mut R, buf: &mut [u8]) -> bool {
    let mut done = 0;
    while done < buf.len() {
        match from.read(&mut buf[done..]) {
            Ok(0) | Err(_) => return false,
            Ok(n) => done += n,
        }
    }
    true
}

fn decode_hex(text: &[u8], out: &mut [u8]) {
    for (pair, b) in text.chunks_exact(2).zip(out.iter_mut()) {
        *b = hex_value(pair[0]) * 16 + hex_value(pair[1]);
    }
}

// The value of a hexadecimal digit, 0 to 9 or a to f. By hand, since any other byte counts as some digit too.
fn hex_value(b: u8) -> u8
    ensures { result < 16 }
{
    if b < 58 { b % 16 } else { (b % 16 + 9) % 16 }
}

// Prints the line of a case, all at once. What cannot be printed is dropped.
fn print_answer<W: Write>(case: &Case, to: &mut W) {
    let mut notes = [0u8; NOTES_ROOM];
    let mut out = [0u8; ROOM];
    let mut line = Cursor::new([0u8; LINE_ROOM]);
    let _ = match answer_case(case, &mut notes, &mut out) {
        Some(answer) => writeln!(line, "{answer}"),
        None => writeln!(line),
    };
    if let Some(text) = line.get_ref().get(..line.position() as usize) {
        let _ = to.write_all(text);
    }
}

// The answer to a case: none where the input is too short for its kind.
// By the letter and no enum of kinds: a letter is met here alone, in the arm that answers it.
fn answer_case<'a>(case: &'a Case, notes: &'a mut [u8], out: &'a mut [u8]) -> Option<Answer<'a>> {
    let argument = usize::from(case.argument);
    let input = case.input();
    Some(match case.kind {
        b'r' => tell_read(input, notes),
        b'c' => {
            let (notes, values) = notes_and_values(case.argument, input)?;
            match message_write::write_clean(values, notes, out) {
                Ok(cleaned) => {
                    Answer::Cleaned(
                        Written(out.get(..cleaned.length)),
                        cleaned.padded.to_bytes(),
                    )
                }
                Err(_) => Answer::Cleaned(Written(None), FieldSet::none().to_bytes()),
            }
        }
        b'e' => {
            let (notes, values) = notes_and_values(case.argument, input)?;
            Answer::Written(tell_written(message_write::write_exact(values, notes, out), out))
        }
        b'q' => {
            let (notes, values) = notes_and_values(case.argument, input)?;
            tell_required(validation_required::check_required(values, notes))
        }
        b'p' => tell_check(validation_pan::check_pan(input)),
        b'd' => tell_check(validation_dates::check_date(input)),
        b't' => tell_check(validation_dates::check_time(input)),
        // Only the class is asked: 16.
        b'k' => match validation_field::field_fault(argument, input) {
            Err(Cause::ClassBroken) => Answer::Refused,
            _ => Answer::Good,
        },
        b'f' => match validation_field::field_fault(argument, input) {
            Ok(()) => Answer::Good,
            Err(cause) => Answer::RefusedFor(usize::from(cause.number())),
        },
        b'b' => Answer::Written(tell_written(encoding_bcd::encode(input, out), out)),
        b'u' => Answer::Written(tell_written(encoding_bcd::decode(input, argument, out), out)),
        b'x' => Answer::Written(tell_written(encoding_ebcdic::encode(input, out), out)),
        b'a' => Answer::Written(tell_written(encoding_ebcdic::decode(input, out), out)),
        // The input is the encoding's number and a length in two bytes.
        b'l' => {
            let [number, high, low] = *input.first_chunk::<3>()?;
            let length = usize::from(u16::from_be_bytes([high, low]));
            Answer::Written(tell_written(
                encoding_length::encode(length, argument, encoding_of(number), out),
                out,
            ))
        }
        // The input is the encoding's number and the indicator.
        _ => {
            let (number, indicator) = input.split_first()?;
            tell_length(encoding_length::decode(indicator, argument, encoding_of(*number)))
        }
    })
}

// The input is notes of so many fields, then the values.
fn notes_and_values(fields: u8, input: &[u8]) -> Option<(&[u8], &[u8])> {
    input.split_at_checked(11 + 8 * usize::from(fields))
}

fn tell_read<'a>(message: &'a [u8], notes: &'a mut [u8]) -> Answer<'a> {
    match message_reader::read(message, notes) {
        Ok(Accepted { used, bitmaps }) => Answer::Read {
            used,
            bitmaps,
            message,
            notes,
        },
        Err(_) => Answer::Refused,
    }
}

fn tell_written(answer: Result<usize, Refusal>, out: &[u8]) -> Written<'_> {
    Written(answer.ok().and_then(|n| out.get(..n)))
}

fn tell_check<'a>(answer: Result<(), Refusal>) -> Answer<'a> {
    answer.map_or(Answer::Refused, |()| Answer::Good)
}

// Which field is missing, if one is.
fn tell_required<'a>(answer: Result<(), Refusal>) -> Answer<'a> {
    answer.map_or_else(|why| Answer::RefusedFor(why.field), |()| Answer::Good)
}

fn tell_length<'a>(answer: Result<usize, Refusal>) -> Answer<'a> {
    answer.map_or(Answer::Refused, |n| Answer::Length(n))
}

fn encoding_of(number: u8) -> Encoding {
    Encoding::try_from(u64::from(number)).unwrap_or(Encoding::Ebcdic)
}

impl fmt::Display for Answer<'_> {
    fn fmt<W: fmt::Write>(&self, f: &mut fmt::Formatter<W>) -> fmt::Result {
        match self {
            Answer::Good => write!(f, "good"),
            Answer::Refused => write!(f, "refused"),
            Answer::RefusedFor(n) => write!(f, "refused {n}"),
            Answer::Length(n) => write!(f, "{n}"),
            Answer::Written(written) => write!(f, "{written}"),
            Answer::Cleaned(written, padded) => write!(f, "{written} padded {}", Hex(padded)),
            Answer::Read {
                used,
                bitmaps,
                message,
                notes,
            } => {
                write!(f, "used {used} bitmaps {bitmaps}")?;
                for field in 2..65 {
                    if message_lookup::look_up(message, notes, field).is_ok() {
                        write!(
                            f,
                            " {field}={}",
                            Hex(message_lookup::content(message, notes, field))
                        )?;
                    }
                }
                Ok(())
            }
        }
    }
}

impl fmt::Display for Written<'_> {
    fn fmt<W: fmt::Write>(&self, f: &mut fmt::Formatter<W>) -> fmt::Result {
        match self.0 {
            Some(bytes) => write!(f, "{}", Hex(bytes)),
            None => write!(f, "refused"),
        }
    }
}

impl fmt::Display for Hex<'_> {
    fn fmt<W: fmt::Write>(&self, f: &mut fmt::Formatter<W>) -> fmt::Result {
        for b in self.0 {
            write!(f, "{b:02x}")?;
        }
        Ok(())
    }
}
