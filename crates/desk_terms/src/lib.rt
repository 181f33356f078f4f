// The terms in which other languages speak with the library: answers of numbers alone, and encodings by their numbers. An answer has
// number, field and position first, all 0 where nothing is refused, then its values, all 0 where something is (`tell_cleaned` alone tells the set
// that it is handed). Each struct is flat, since C reads it so, and what tells one says the three members anew.
#![tactic(auto)]

ghost use Rattle.std.specs.Prelude.{◌≡◌};
ghost use Rattle.refusal.specs.Refusals.{told, told_checked};
ghost use Rattle.message_reader.specs.Reader.{told_read};
ghost use Rattle.message_lookup.specs.Lookup.{told_found};
ghost use Rattle.message_write.specs.Written.{cleaned_answer, cleaned_padded};
ghost use Rattle.packed_link.specs.Link.{told_link};
ghost use Rattle.desk_terms.specs.Terms.{reading, written, cleaned, found, translation, measurement, judgement, encoded_by, encoded_into, decoded_by};

use bitmap::FieldSet;
use encoding_length::Encoding;
use message_lookup::Place;
use message_reader::Accepted;
use packed_link::Translated;
use refusal::Refusal;

// What reading tells: the bytes used and the count of bitmaps.
#[repr(C)]
#[derive(Clone, Copy)]
pub struct Reading {
    pub number: u64,
    pub field: u64,
    pub position: u64,
    pub used: u64,
    pub bitmaps: u64,
}

// What writing and converting tell: the length written.
#[repr(C)]
#[derive(Clone, Copy)]
pub struct Written {
    pub number: u64,
    pub field: u64,
    pub position: u64,
    pub length: u64,
}

// What cleaning tells: the length written, and the set of the fields padded in three words. Bit f is counted from the high bit
// of the first word, from 1.
#[repr(C)]
#[derive(Clone, Copy)]
pub struct Cleaned {
    pub number: u64,
    pub field: u64,
    pub position: u64,
    pub length: u64,
    pub padded1: u64,
    pub padded2: u64,
    pub padded3: u64,
}

// What lookup tells: the place of the content in the values, and its length.
#[repr(C)]
#[derive(Clone, Copy)]
pub struct Found {
    pub number: u64,
    pub field: u64,
    pub position: u64,
    pub offset: u64,
    pub length: u64,
}

// What carrying a message over the packed link tells: the bytes used of the input, and the bytes written.
#[repr(C)]
#[derive(Clone, Copy)]
pub struct Translation {
    pub number: u64,
    pub field: u64,
    pub position: u64,
    pub used: u64,
    pub written: u64,
}

// What decoding a length tells: the length.
#[repr(C)]
#[derive(Clone, Copy)]
pub struct Measurement {
    pub number: u64,
    pub field: u64,
    pub position: u64,
    pub value: u64,
}

// What a check tells.
#[repr(C)]
#[derive(Clone, Copy)]
pub struct Judgement {
    pub number: u64,
    pub field: u64,
    pub position: u64,
}

// Encoding with the encoding as a number: 25 where it is none, before every other test, since no count of digits is enough in it.
#[tactic(auto, unfolding(crate::specs::Terms::encoded_by, crate::specs::Terms::encoded_into))]
pub fn encode_length(
    length: usize,
    digits: usize,
    encoding: u64,
    out: &mut [u8],
) -> Result<usize, Refusal>
    ensures answers { result ≡ encoded_by encoding digits length out.old }
    ensures writes { out.new ≡ encoded_into encoding digits length out.old }
{
    encoding_length::encode(length, digits, Encoding::try_from(encoding)?, out)
}

// Decoding with the encoding as a number, in the same way.
#[tactic(auto, unfolding(crate::specs::Terms::decoded_by))]
pub fn decode_length(source: &[u8], digits: usize, encoding: u64) -> Result<usize, Refusal>
    ensures { result ≡ decoded_by encoding digits source.now }
{
    encoding_length::decode(source, digits, Encoding::try_from(encoding)?)
}

// A reading, told.
impl From<Result<Accepted, Refusal>> for Reading {
    ghost from_gives = { λ a r. r ≡ reading (told_read a) };

    #[tactic(auto, unfolding(crate::specs::Terms::reading))]
    fn from(answer: Result<Accepted, Refusal>) -> Reading {
        match answer {
            Ok(Accepted { used, bitmaps }) => Reading {
                number: 0,
                field: 0,
                position: 0,
                used: used as u64,
                bitmaps: bitmaps as u64,
            },
            Err(why) => Reading {
                number: why.cause.number() as u64,
                field: why.field as u64,
                position: why.position as u64,
                used: 0,
                bitmaps: 0,
            },
        }
    }
}

// A writing or a conversion, told.
impl From<Result<usize, Refusal>> for Written {
    ghost from_gives = { λ a r. r ≡ written (told a) };

    #[tactic(auto, unfolding(crate::specs::Terms::written))]
    fn from(answer: Result<usize, Refusal>) -> Written {
        match answer {
            Ok(length) => Written {
                number: 0,
                field: 0,
                position: 0,
                length: length as u64,
            },
            Err(why) => Written {
                number: why.cause.number() as u64,
                field: why.field as u64,
                position: why.position as u64,
                length: 0,
            },
        }
    }
}

// A cleaning and the fields that it padded, told.
impl From<Result<message_write::Cleaned, Refusal>> for Cleaned {
    ghost from_gives = { λ a r. r ≡ cleaned (told (cleaned_answer a)) (cleaned_padded a) };

    fn from(answer: Result<message_write::Cleaned, Refusal>) -> Cleaned {
        match answer {
            Ok(cleaned) => tell_cleaned(Ok(cleaned.length), cleaned.padded),
            Err(why) => tell_cleaned(Err(why), FieldSet::none()),
        }
    }
}

// A cleaning's answer and a set of fields, told: the set in its three words, whatever the answer is.
#[tactic(auto, unfolding(crate::specs::Terms::cleaned, crate::specs::Terms::word_at))]
pub fn tell_cleaned(answer: Result<usize, Refusal>, padded: FieldSet) -> Cleaned
    ensures { result ≡ cleaned (told answer) padded.bits }
{
    let told = Written::from(answer);
    let bits = padded.to_bytes();
    Cleaned {
        number: told.number,
        field: told.field,
        position: told.position,
        length: told.length,
        padded1: octets::big_endian_of(&bits[0..8]) as u64,
        padded2: octets::big_endian_of(&bits[8..16]) as u64,
        padded3: octets::big_endian_of(&bits[16..24]) as u64,
    }
}

// A lookup, told.
impl From<Result<Place, Refusal>> for Found {
    ghost from_gives = { λ a r. r ≡ found (told_found a) };

    #[tactic(auto, unfolding(crate::specs::Terms::found))]
    fn from(answer: Result<Place, Refusal>) -> Found {
        match answer {
            Ok(Place { offset, length }) => Found {
                number: 0,
                field: 0,
                position: 0,
                offset: offset as u64,
                length: length as u64,
            },
            Err(why) => Found {
                number: why.cause.number() as u64,
                field: why.field as u64,
                position: why.position as u64,
                offset: 0,
                length: 0,
            },
        }
    }
}

// A message carried over the packed link, told.
impl From<Result<Translated, Refusal>> for Translation {
    ghost from_gives = { λ a r. r ≡ translation (told_link a) };

    #[tactic(auto, unfolding(crate::specs::Terms::translation))]
    fn from(answer: Result<Translated, Refusal>) -> Translation {
        match answer {
            Ok(Translated { used, written }) => Translation {
                number: 0,
                field: 0,
                position: 0,
                used: used as u64,
                written: written as u64,
            },
            Err(why) => Translation {
                number: why.cause.number() as u64,
                field: why.field as u64,
                position: why.position as u64,
                used: 0,
                written: 0,
            },
        }
    }
}

// The decoding of a length, told.
impl From<Result<usize, Refusal>> for Measurement {
    ghost from_gives = { λ a r. r ≡ measurement (told a) };

    #[tactic(auto, unfolding(crate::specs::Terms::measurement))]
    fn from(answer: Result<usize, Refusal>) -> Measurement {
        match answer {
            Ok(value) => Measurement {
                number: 0,
                field: 0,
                position: 0,
                value: value as u64,
            },
            Err(why) => Measurement {
                number: why.cause.number() as u64,
                field: why.field as u64,
                position: why.position as u64,
                value: 0,
            },
        }
    }
}

// A check, told.
impl From<Result<(), Refusal>> for Judgement {
    ghost from_gives = { λ a r. r ≡ judgement (told_checked a) };

    #[tactic(auto, unfolding(crate::specs::Terms::judgement))]
    fn from(answer: Result<(), Refusal>) -> Judgement {
        match answer {
            Ok(()) => Judgement {
                number: 0,
                field: 0,
                position: 0,
            },
            Err(why) => Judgement {
                number: why.cause.number() as u64,
                field: why.field as u64,
                position: why.position as u64,
            },
        }
    }
}
