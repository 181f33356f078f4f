// Bytes as a question spells them.

ghost use Rattle.std.specs.Prelude.{◌<◌, IfOk};

use crate::words::{NoQuestion, decimal};
use std::fmt;

// The most bytes that a word may spell, and that may be lent for writing.
pub(crate) const MOST_BYTES: usize = 2048;

// The most equal bytes in a row that are printed with no star.
const UNSTARRED: usize = 16;

// The bytes that a word spells, in the space that is lent for them.
pub(crate) fn spell<'a>(
    word: &str,
    space: &'a mut [u8; MOST_BYTES],
) -> Result<&'a [u8], NoQuestion> {
    if word == "-" {
        return Ok(&[]);
    }
    let mut left = space.as_mut_slice();
    for part in word.split('+') {
        left = spell_part(part, left)?;
    }
    let length = MOST_BYTES.saturating_sub(left.len());
    space.get(..length).ok_or(NoQuestion)
}

// Puts the bytes of a part at the front of the space that is left, and answers what is left then.
fn spell_part<'a>(part: &str, left: &'a mut [u8]) -> Result<&'a mut [u8], NoQuestion> {
    let (digits, times) = match part.split_once('*') {
        Some((digits, times)) => (digits, decimal(times)?),
        None => (part, 1),
    };
    // A part has to fit once, even where it is to stand there no times.
    let size = decode_hex(digits, left)?;
    let length = size.saturating_mul(times);
    let (bytes, left) = left.split_at_mut_checked(length).ok_or(NoQuestion)?;
    for i in size..length {
        bytes[i] = bytes[i - size];
    }
    Ok(left)
}

// Puts the bytes that digits spell at the front of the space, and answers how many they are.
fn decode_hex(digits: &str, space: &mut [u8]) -> Result<usize, NoQuestion> {
    let pairs = digits.as_bytes().chunks(2);
    let size = pairs.len();
    if size == 0 {
        return Err(NoQuestion);
    }
    let bytes = space.get_mut(..size).ok_or(NoQuestion)?;
    for (byte, pair) in bytes.iter_mut().zip(pairs) {
        *byte = hex_byte(pair)?;
    }
    Ok(size)
}

fn hex_byte(pair: &[u8]) -> Result<u8, NoQuestion> {
    match pair {
        [high, low] => Ok(hex_value(*high)? * 16 + hex_value(*low)?),
        _ => Err(NoQuestion),
    }
}

fn hex_value(digit: u8) -> Result<u8, NoQuestion>
    ensures { IfOk result (λ value. value < 16) }
{
    let value = char::from(digit).to_digit(16).ok_or(NoQuestion)?;
    Ok(value as u8)
}

// A byte that stands over sixteen times in a row is printed once, with a star and how often.
#[derive(Clone, Copy)]
pub(crate) struct Spelt<'a>(pub &'a [u8]);

// Equal bytes.
#[derive(Clone, Copy)]
struct Run<'a>(&'a [u8]);

impl fmt::Display for Spelt<'_> {
    fn fmt<W: fmt::Write>(&self, f: &mut fmt::Formatter<W>) -> fmt::Result {
        if self.0.is_empty() {
            return f.write_str("-");
        }
        let mut starred = None;
        for run in self.0.chunk_by(|a, b| a == b) {
            let is_starred = run.len() > UNSTARRED;
            if starred.is_some_and(|before| before || is_starred) {
                f.write_str("+")?;
            }
            write!(f, "{}", Run(run))?;
            starred = Some(is_starred);
        }
        Ok(())
    }
}

impl fmt::Display for Run<'_> {
    fn fmt<W: fmt::Write>(&self, f: &mut fmt::Formatter<W>) -> fmt::Result {
        match self.0 {
            [byte, ..] if self.0.len() > UNSTARRED => write!(f, "{byte:02x}*{}", self.0.len()),
            bytes => {
                for byte in bytes {
                    write!(f, "{byte:02x}")?;
                }
                Ok(())
            }
        }
    }
}
