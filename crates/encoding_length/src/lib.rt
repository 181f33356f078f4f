// Length indicators: a length in two or three digits, in ASCII, BCD or EBCDIC.
#![tactic(auto)]

ghost use Rattle.std.specs.Prelude.{◌≡◌, true, cond, ◌^◌, ◌≤◌, length};
ghost use Rattle.octets.specs.Lists.{all};
ghost use Rattle.octets.specs.Numbers.{is_digit, decimal, decimal_of};
ghost use Rattle.refusal.specs.Refusals.{plain, good, told, converted, converted_into};
ghost use Rattle.refusal.specs.Numbers.{length_not_digits};
ghost use Rattle.encoding_ebcdic.specs.Ebcdic.{encode_fault as ascii_fault};
ghost use Rattle.encoding_length.specs.Lengths.{numbered, is_width, size_of, spelt, text_of, encode_fault, alphabet_fault, measured};

use encoding_bcd::bytes_of;
use octets::{all_between, decimal_of, put, put_decimal};
use refusal::{Cause, Refusal, check_room};

#[derive(Clone, Copy)]
pub enum Encoding {
    Ascii,
    Bcd,
    Ebcdic,
}

// An encoding by its number. 01 has no refusal for a number that is none: 25, since no count of digits is enough in it.
impl TryFrom<u64> for Encoding {
    type Error = Cause;

    ghost try_from_gives = { λ n r. r ≡ numbered n };

    fn try_from(number: u64) -> Result<Encoding, Cause> {
        match number {
            0 => Ok(Encoding::Ascii),
            1 => Ok(Encoding::Bcd),
            2 => Ok(Encoding::Ebcdic),
            _ => Err(Cause::LengthNeedsDigits),
        }
    }
}

// Writes a length in the given count of digits: 25 where these are not two or three or the length needs more, then 14.
pub fn encode(
    length: usize,
    digits: usize,
    encoding: Encoding,
    out: &mut [u8],
) -> Result<usize, Refusal>
    ensures answers { result ≡ converted (encode_fault digits length) (spelt encoding (decimal digits length)) out.old }
    ensures tells { told result ≡ told (converted (encode_fault digits length) (spelt encoding (decimal digits length)) out.old) }
    ensures writes { out.new ≡ converted_into (encode_fault digits length) (spelt encoding (decimal digits length)) out.old }
{
    encode_fault(length, digits)?;
    let mut text = [0u8; 3];
    put_decimal(length, digits, &mut text);
    put_spelt(&text[..digits], encoding, out)
}

// Reads a length of the given count of digits: 25 where these are not two or three, 23 where src has not the bytes for
// them, 22 or 24 where src is no text of the encoding, then 6 where a character is no digit.
pub fn decode(src: &[u8], digits: usize, encoding: Encoding) -> Result<usize, Refusal>
    ensures answers { result ≡ measured encoding digits src.now }
    ensures tells { told result ≡ told (measured encoding digits src.now) }
{
    if !is_width(digits) {
        return Err(Cause::LengthNeedsDigits.into());
    }
    if src.len() != size_of(digits, encoding) {
        return Err(Cause::ByteCountWrong.into());
    }
    let mut text = [0u8; 3];
    let n = put_text(src, digits, encoding, &mut text)?;
    measure(&text[..n])
}

// Whether an indicator may have so many digits.
#[tactic(auto, unfolding(crate::specs::Lengths::is_width))]
fn is_width(digits: usize) -> bool
    ensures { result ≡ is_width digits }
{
    digits == 2 || digits == 3
}

#[tactic(auto, unfolding(crate::specs::Lengths::encode_fault))]
fn encode_fault(length: usize, digits: usize) -> Result<(), Cause>
    ensures { result ≡ encode_fault digits length }
{
    if !is_width(digits) || least_too_long(digits) <= length {
        return Err(Cause::LengthNeedsDigits);
    }
    Ok(())
}

// The least length that needs more digits.
#[tactic(auto, using(crate::proofs::Widths::not_two))]
fn least_too_long(digits: usize) -> usize
    requires { is_width digits ≡ true }
    ensures { result ≡ 10 ^ digits }
{
    if digits == 2 { 100 } else { 1000 }
}

// Writes ASCII digits in the encoding: 14 alone can be refused.
fn put_spelt(text: &[u8], encoding: Encoding, out: &mut [u8]) -> Result<usize, Refusal>
    requires { all is_digit text.now ≡ true }
    ensures answers { result ≡ converted good (spelt encoding text.now) out.old }
    ensures writes { out.new ≡ converted_into good (spelt encoding text.now) out.old }
{
    match encoding {
        Encoding::Ascii => copy(text, out),
        Encoding::Bcd => encoding_bcd::encode(text, out),
        Encoding::Ebcdic => encoding_ebcdic::encode(text, out),
    }
}

// Copies ASCII text: 24 where a byte is over 0x7F, then 14.
fn copy(src: &[u8], out: &mut [u8]) -> Result<usize, Refusal>
    ensures answers { result ≡ converted (ascii_fault src.now) src.now out.old }
    ensures writes { out.new ≡ converted_into (ascii_fault src.now) src.now out.old }
{
    encoding_ebcdic::encode_fault(src)?;
    check_room(src.len(), out)?;
    put(src, out);
    Ok(src.len())
}

// How many bytes the digits take in the encoding.
#[tactic(auto, unfolding(crate::specs::Lengths::size_of))]
fn size_of(digits: usize, encoding: Encoding) -> usize
    ensures { result ≡ size_of encoding digits }
{
    match encoding {
        Encoding::Ascii | Encoding::Ebcdic => digits,
        Encoding::Bcd => bytes_of(digits),
    }
}

// Writes the text of src in ASCII: 22 or 24 where it is none of the encoding, then 14.
#[tactic(auto, unfolding(crate::specs::Lengths::alphabet_fault, crate::specs::Lengths::text_of))]
fn put_text(src: &[u8], digits: usize, encoding: Encoding, out: &mut [u8]) -> Result<usize, Refusal>
    ensures answers { result ≡ converted (alphabet_fault encoding digits src.now) (text_of encoding digits src.now) out.old }
    ensures writes { out.new ≡ converted_into (alphabet_fault encoding digits src.now) (text_of encoding digits src.now) out.old }
{
    match encoding {
        Encoding::Ascii => copy(src, out),
        Encoding::Bcd => encoding_bcd::decode(src, digits, out),
        Encoding::Ebcdic => encoding_ebcdic::decode(src, out),
    }
}

// The length that a text spells, of at most as many digits as can be read: 6 where a byte is no digit.
fn measure(text: &[u8]) -> Result<usize, Refusal>
    requires { length text.now ≤ 16 }
    ensures { result ≡ cond (all is_digit text.now) (Ok (decimal_of text.now)) (Err (plain length_not_digits)) }
{
    if !all_between(text, b'0', b'9') {
        return Err(Cause::LengthNotDigits.into());
    }
    Ok(decimal_of(text))
}
