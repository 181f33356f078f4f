// The questions.

use crate::answer::{carried, checked, cleaned, found, measured, read, written, yes_or_no};
use crate::room::Room;
use crate::spelling::Spelt;
use crate::words::{NoQuestion, Words};
use encoding_length::Encoding;
use field_table::Class;
use std::fmt::{self, Write};

// A question, with what its words ask for in their order.
#[derive(Clone, Copy)]
pub(crate) enum Question<'a> {
    BcdEncode(Room, &'a [u8]),
    BcdDecode(Room, usize, &'a [u8]),
    BcdBytes(usize),
    EbcdicEncode(Room, &'a [u8]),
    EbcdicDecode(Room, &'a [u8]),
    LengthEncode(Room, Encoding, usize, usize),
    LengthDecode(Encoding, usize, &'a [u8]),
    IsOfClass(Class, &'a [u8]),
    Field(usize, &'a [u8]),
    Pan(&'a [u8]),
    Date(&'a [u8]),
    Time(&'a [u8]),
    Currency(&'a [u8]),
    Read(Room, &'a [u8]),
    LookUp(usize, &'a [u8], &'a [u8]),
    Required(&'a [u8], &'a [u8]),
    WriteExact(Room, &'a [u8], &'a [u8]),
    WriteClean(Room, &'a [u8], &'a [u8]),
    Pack(Room, &'a [u8]),
    Unpack(Room, &'a [u8]),
}

impl<'a> Question<'a> {
    // The question that the words ask, up to its last word.
    pub(crate) fn from_words(words: &mut Words<'a>) -> Result<Self, NoQuestion> {
        Ok(match words.name()? {
            "bcd-encode" => Self::BcdEncode(words.room()?, words.bytes()?),
            "bcd-decode" => Self::BcdDecode(words.room()?, words.number()?, words.bytes()?),
            "bcd-bytes" => Self::BcdBytes(words.number()?),
            "ebcdic-encode" => Self::EbcdicEncode(words.room()?, words.bytes()?),
            "ebcdic-decode" => Self::EbcdicDecode(words.room()?, words.bytes()?),
            "length-encode" => {
                let (room, encoding) = (words.room()?, words.encoding()?);
                Self::LengthEncode(room, encoding, words.number()?, words.number()?)
            }
            "length-decode" => {
                Self::LengthDecode(words.encoding()?, words.number()?, words.bytes()?)
            }
            "class" => Self::IsOfClass(words.class()?, words.bytes()?),
            "field" => Self::Field(words.number()?, words.bytes()?),
            "pan" => Self::Pan(words.bytes()?),
            "date" => Self::Date(words.bytes()?),
            "time" => Self::Time(words.bytes()?),
            "currency" => Self::Currency(words.bytes()?),
            "read" => Self::Read(words.room()?, words.bytes()?),
            "look-up" => Self::LookUp(words.number()?, words.bytes()?, words.bytes()?),
            "required" => Self::Required(words.bytes()?, words.bytes()?),
            "write-exact" => Self::WriteExact(words.room()?, words.bytes()?, words.bytes()?),
            "write-clean" => Self::WriteClean(words.room()?, words.bytes()?, words.bytes()?),
            "pack" => Self::Pack(words.room()?, words.bytes()?),
            "unpack" => Self::Unpack(words.room()?, words.bytes()?),
            _ => return Err(NoQuestion),
        })
    }

    // Asks the routine, and tells what it answers.
    pub(crate) fn tell<W: Write>(self, to: &mut W) -> fmt::Result {
        match self {
            Self::BcdEncode(room, bytes) => {
                room.lend(to, |out| written(encoding_bcd::encode(bytes, out)))
            }
            Self::BcdDecode(room, digits, bytes) => {
                room.lend(to, |out| written(encoding_bcd::decode(bytes, digits, out)))
            }
            Self::BcdBytes(digits) => write!(to, "{}", encoding_bcd::bytes_of(digits)),
            Self::EbcdicEncode(room, bytes) => {
                room.lend(to, |out| written(encoding_ebcdic::encode(bytes, out)))
            }
            Self::EbcdicDecode(room, bytes) => {
                room.lend(to, |out| written(encoding_ebcdic::decode(bytes, out)))
            }
            Self::LengthEncode(room, encoding, digits, length) => {
                room.lend(
                    to,
                    |out| written(encoding_length::encode(length, digits, encoding, out)),
                )
            }
            Self::LengthDecode(encoding, digits, bytes) => {
                let answer = encoding_length::decode(bytes, digits, encoding);
                write!(to, "{}", measured(answer))
            }
            Self::IsOfClass(class, bytes) => {
                write!(to, "{}", yes_or_no(field_class::is_of_class(class, bytes)))
            }
            Self::Field(number, bytes) => {
                let answer = validation_field::check_field(number, bytes);
                write!(to, "{}", checked(answer))
            }
            Self::Pan(bytes) => write!(to, "{}", checked(validation_pan::check_pan(bytes))),
            Self::Date(bytes) => write!(to, "{}", checked(validation_dates::check_date(bytes))),
            Self::Time(bytes) => write!(to, "{}", checked(validation_dates::check_time(bytes))),
            Self::Currency(bytes) => {
                write!(to, "{}", yes_or_no(validation_field::is_currency(bytes)))
            }
            Self::Read(room, bytes) => {
                room.lend(to, |out| read(message_reader::read(bytes, out)))
            }
            Self::LookUp(number, values, notes) => look_up(number, values, notes, to),
            Self::Required(values, notes) => {
                let answer = validation_required::check_required(values, notes);
                write!(to, "{}", checked(answer))
            }
            Self::WriteExact(room, values, notes) => {
                room.lend(
                    to,
                    |out| written(message_write::write_exact(values, notes, out)),
                )
            }
            Self::WriteClean(room, values, notes) => {
                room.lend(
                    to,
                    |out| cleaned(message_write::write_clean(values, notes, out)),
                )
            }
            Self::Pack(room, bytes) => {
                room.lend(to, |out| carried(packed_link::pack(bytes, out)))
            }
            Self::Unpack(room, bytes) => {
                room.lend(to, |out| carried(packed_link::unpack(bytes, out)))
            }
        }
    }
}

// The content is printed of a refusal too: it is the empty part at the front of the values.
fn look_up<W: Write>(number: usize, values: &[u8], notes: &[u8], to: &mut W) -> fmt::Result {
    let answer = found(message_lookup::look_up(values, notes, number));
    let content = message_lookup::content(values, notes, number);
    write!(to, "{answer}, content {}", Spelt(content))
}
