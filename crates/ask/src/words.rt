// The words of a line.

use crate::room::Room;
use crate::spelling::{MOST_BYTES, Spelt, spell};
use encoding_length::Encoding;
use field_table::Class;
use std::fmt::{self, Display};
use std::str::Split;

// Space for the bytes that words spell: a question has at most two such words.
pub(crate) type Spaces = [[u8; MOST_BYTES]; 2];

// A line is no question.
#[derive(Clone, Copy, Debug)]
pub(crate) struct NoQuestion;

// The words of a line that are still to be read, with space for the bytes that they spell, and the line as it was understood so far.
#[derive(Drop)]
pub(crate) struct Words<'a> {
    rest: Split<'a, char>,
    spaces: &'a mut [[u8; MOST_BYTES]],
    understood: Understood<'a>,
}

impl<'a> Words<'a> {
    pub(crate) fn new(line: &'a [u8], spaces: &'a mut Spaces) -> Result<Self, NoQuestion> {
        let text = str::from_utf8(line).map_err(|_| NoQuestion)?;
        Ok(Words {
            rest: text.split(' '),
            spaces,
            understood: Understood {
                plain: text,
                first: None,
                second: None,
            },
        })
    }

    pub(crate) fn name(&mut self) -> Result<&'a str, NoQuestion> {
        self.next()
    }

    pub(crate) fn number(&mut self) -> Result<usize, NoQuestion> {
        decimal(self.next()?)
    }

    pub(crate) fn room(&mut self) -> Result<Room, NoQuestion> {
        Room::new(self.number()?)
    }

    pub(crate) fn encoding(&mut self) -> Result<Encoding, NoQuestion> {
        match self.next()? {
            "ascii" => Ok(Encoding::Ascii),
            "bcd" => Ok(Encoding::Bcd),
            "ebcdic" => Ok(Encoding::Ebcdic),
            _ => Err(NoQuestion),
        }
    }

    pub(crate) fn class(&mut self) -> Result<Class, NoQuestion> {
        match self.next()? {
            "n" => Ok(Class::N),
            "a" => Ok(Class::A),
            "an" => Ok(Class::An),
            "ans" => Ok(Class::Ans),
            "ns" => Ok(Class::Ns),
            "z" => Ok(Class::Z),
            "x+n" => Ok(Class::Xn),
            "b" => Ok(Class::B),
            _ => Err(NoQuestion),
        }
    }

    // Words that spell bytes stand behind all others.
    pub(crate) fn bytes(&mut self) -> Result<&'a [u8], NoQuestion> {
        let word = self.next()?;
        let bytes = spell(word, self.space()?)?;
        self.understood.spell_last(bytes);
        Ok(bytes)
    }

    // The question as it was understood, where no word is left.
    pub(crate) fn finish(mut self) -> Result<Understood<'a>, NoQuestion> {
        match self.rest.next() {
            None => Ok(self.understood),
            Some(_) => Err(NoQuestion),
        }
    }

    fn space(&mut self) -> Result<&'a mut [u8; MOST_BYTES], NoQuestion> {
        self.spaces.split_off_first_mut().ok_or(NoQuestion)
    }

    fn next(&mut self) -> Result<&'a str, NoQuestion> {
        self.rest.next().ok_or(NoQuestion)
    }
}

// A question as it was understood: its words as they stand, and behind them the bytes that its last words spell.
#[derive(Clone, Copy)]
pub(crate) struct Understood<'a> {
    plain: &'a str,
    first: Option<&'a [u8]>,
    second: Option<&'a [u8]>,
}

impl<'a> Understood<'a> {
    // One more of the last words spells bytes: these.
    fn spell_last(&mut self, bytes: &'a [u8]) {
        if let Some((plain, _)) = self.plain.rsplit_once(' ') {
            self.plain = plain;
        }
        if self.first.is_none() {
            self.first = Some(bytes);
        } else {
            self.second = Some(bytes);
        }
    }
}

impl Display for Understood<'_> {
    fn fmt<W: fmt::Write>(&self, f: &mut fmt::Formatter<W>) -> fmt::Result {
        f.write_str(self.plain)?;
        for bytes in [self.first, self.second].into_iter().flatten() {
            write!(f, " {}", Spelt(bytes))?;
        }
        Ok(())
    }
}

// The number that a word of decimal digits spells.
pub(crate) fn decimal(word: &str) -> Result<usize, NoQuestion> {
    // `parse` takes a sign.
    if word.starts_with('+') {
        return Err(NoQuestion);
    }
    word.parse::<usize>().map_err(|_| NoQuestion)
}
