// The answers, as they are printed.

use message_lookup::Place;
use message_reader::Accepted;
use message_write::Cleaned;
use packed_link::Translated;
use refusal::Refusal;
use std::fmt::{self, Display};

// What a routine answers that does not refuse.
#[derive(Clone, Copy)]
pub(crate) enum Answer {
    Passed,
    Length(usize),
    Written(usize),
    At(Place),
    Read(Accepted),
    Carried(Translated),
}

impl Display for Answer {
    fn fmt<W: fmt::Write>(&self, f: &mut fmt::Formatter<W>) -> fmt::Result {
        match *self {
            Answer::Passed => f.write_str("passed"),
            Answer::Length(n) => write!(f, "{n}"),
            Answer::Written(n) => write!(f, "wrote {n}"),
            Answer::At(Place { offset, length }) => write!(f, "at {offset} length {length}"),
            Answer::Read(Accepted { used, bitmaps }) => {
                write!(f, "used {used}, bitmaps {bitmaps}")
            }
            Answer::Carried(Translated { used, written }) => {
                write!(f, "used {used} written {written}")
            }
        }
    }
}

// An answer, or why there is none.
#[derive(Clone, Copy)]
pub(crate) struct Told(Result<Answer, Refusal>);

impl Display for Told {
    fn fmt<W: fmt::Write>(&self, f: &mut fmt::Formatter<W>) -> fmt::Result {
        match self.0 {
            Ok(answer) => write!(f, "{answer}"),
            Err(why) => write!(f, "{why}"),
        }
    }
}

// What the cleaning writer answers, with the fields that it padded: none where it refuses.
#[derive(Clone, Copy)]
pub(crate) struct Cleaning(Result<Cleaned, Refusal>);

impl Display for Cleaning {
    fn fmt<W: fmt::Write>(&self, f: &mut fmt::Formatter<W>) -> fmt::Result {
        let cleaned = match self.0 {
            Ok(cleaned) => cleaned,
            Err(why) => return write!(f, "{why}, padded none"),
        };
        write!(f, "{}, padded", Answer::Written(cleaned.length))?;
        let mut none = true;
        for field in (2..=192).filter(|field| cleaned.padded.has(*field)) {
            write!(f, " {field}")?;
            none = false;
        }
        if none {
            f.write_str(" none")?;
        }
        Ok(())
    }
}

pub(crate) fn yes_or_no(is_so: bool) -> &'static str {
    if is_so { "yes" } else { "no" }
}

// The library's own answers, by what is printed of them.

pub(crate) fn written(answer: Result<usize, Refusal>) -> Told {
    Told(answer.map(|n| Answer::Written(n)))
}

pub(crate) fn cleaned(answer: Result<Cleaned, Refusal>) -> Cleaning {
    Cleaning(answer)
}

pub(crate) fn checked(answer: Result<(), Refusal>) -> Told {
    Told(answer.map(|()| Answer::Passed))
}

pub(crate) fn measured(answer: Result<usize, Refusal>) -> Told {
    Told(answer.map(|n| Answer::Length(n)))
}

pub(crate) fn found(answer: Result<Place, Refusal>) -> Told {
    Told(answer.map(|place| Answer::At(place)))
}

pub(crate) fn read(answer: Result<Accepted, Refusal>) -> Told {
    Told(answer.map(|accepted| Answer::Read(accepted)))
}

pub(crate) fn carried(answer: Result<Translated, Refusal>) -> Told {
    Told(answer.map(|translated| Answer::Carried(translated)))
}
