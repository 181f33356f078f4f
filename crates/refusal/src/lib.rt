// What a routine answers when it refuses: 01's numbers, by name. Nothing here knows how any routine works.
#![tactic(auto)]

ghost use Rattle.std.specs.Prelude.{◌≡◌, length};
ghost use Rattle.refusal.specs.Numbers.{number_of};
ghost use Rattle.refusal.specs.Refusals.{plain, refusal, room, checked};

use std::fmt;

// Why a routine refuses: 01's numbers, by name. While three bitmaps are taken no routine gives the last.
#[derive(Clone, Copy, PartialEq, Eq, Debug)]
pub enum Cause {
    // The reader's notes buffer is under 1,531 bytes.
    NotesTooShort = 1,
    // The message is under 12 bytes.
    MessageTooShort = 2,
    // The MTI has a non-digit.
    MtiNotDigits = 3,
    // The second or third bitmap is incomplete.
    BitmapIncomplete = 4,
    // Length digits or content run past the end.
    PastTheEnd = 5,
    // A length byte is not 0-9.
    LengthNotDigits = 6,
    // The length is over the table's.
    LengthOverTable = 7,
    // A text byte is over 0x7F.
    TextNotAscii = 8,
    // A note is missing, cut or of the wrong kind, or its count is not 1-3.
    NoteMalformed = 9,
    // A number is not above the last; or is 0, 1, 65; or is over 192 in a field check, else over 64 times the count.
    NumberNotAllowed = 10,
    // Offset plus length is over the values' size.
    OutsideValues = 11,
    // A length is not allowed (in cleaning: too long only).
    LengthNotAllowed = 12,
    // The end note differs from the length to be written.
    EndDiffers = 13,
    // The output is too short.
    OutputTooShort = 14,
    // The field is absent.
    FieldAbsent = 15,
    // The class is broken.
    ClassBroken = 16,
    // The PAN check fails.
    PanFails = 17,
    // The amount is all zeros.
    AmountZero = 18,
    // A required field is missing.
    RequiredMissing = 19,
    // A date or time is wrong.
    DateOrTimeWrong = 20,
    // A BCD source is not digits.
    NotDigits = 21,
    // A BCD half-byte is over 9, or the spare leading digit is not 0.
    NotBcd = 22,
    // The byte count is wrong for the digits asked.
    ByteCountWrong = 23,
    // A byte has no ASCII meaning.
    NoAsciiMeaning = 24,
    // A length needs more digits than given, or these are not 2 or 3.
    LengthNeedsDigits = 25,
    // The till program's input is over 60,000 bytes.
    InputTooLong = 26,
    // There is a bitmap more than is taken.
    BitmapOverMost = 27,
}

// 01: "An answer holds number, field (0 if none) and position."
#[derive(Clone, Copy, PartialEq, Eq, Debug)]
pub struct Refusal {
    pub cause: Cause,
    pub field: usize,
    pub position: usize,
}

impl Cause {
    // 01's number.
    pub fn number(self) -> u8
        ensures { result ≡ number_of self }
    {
        self as u8
    }

    // The refusal of a field at a place.
    pub fn at(self, field: usize, position: usize) -> Refusal
        ensures { result ≡ refusal self field position }
    {
        Refusal {
            cause: self,
            field,
            position,
        }
    }
}

// A refusal with no field, at position 0.
impl From<Cause> for Refusal {
    ghost from_gives = { λ c r. r ≡ plain c };

    fn from(cause: Cause) -> Refusal {
        Refusal {
            cause,
            field: 0,
            position: 0,
        }
    }
}

// The till program's form.
impl fmt::Display for Refusal {
    fn fmt<W: fmt::Write>(&self, f: &mut fmt::Formatter<W>) -> fmt::Result {
        let number = self.cause.number();
        let field = self.field;
        let position = self.position;
        write!(f, "refused {number} field {field} at {position}")
    }
}

// Whether n bytes fit in out: 14 where they do not.
pub fn check_room(n: usize, out: &[u8]) -> Result<(), Cause>
    ensures { result ≡ room n (length out.now) }
{
    if out.len() < n {
        return Err(Cause::OutputTooShort);
    }
    Ok(())
}

// What a check of that field answers, whose test is given: its refusals have position 0.
// By `match`: what a closure answers in `map_err` is known to a proof only as some value, and the laws do not meet it.
#[tactic(auto, unfolding(crate::specs::Refusals::checked))]
pub fn answer_check(test: Result<(), Cause>, field: usize) -> Result<(), Refusal>
    ensures { result ≡ checked test field }
{
    match test {
        Ok(()) => Ok(()),
        Err(cause) => Err(cause.at(field, 0)),
    }
}
