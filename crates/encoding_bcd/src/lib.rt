// BCD: two digits to a byte. An odd digit count gets a leading 0, so n digits take half of n bytes, rounded up.
#![tactic(auto)]

ghost use Rattle.std.specs.Prelude.{◌≡◌, true, ◌+◌, ◌-◌, ◌<◌, ◌≤◌, length, get_or};
ghost use Rattle.octets.specs.Lists.{all, lay};
ghost use Rattle.octets.specs.Numbers.{is_digit};
ghost use Rattle.refusal.specs.Refusals.{told, converted, converted_into};
ghost use Rattle.encoding_bcd.specs.Bcd.{bytes_of, evened, packed, spread, unpacked, is_bcd, spare_zero, encode_fault, decode_fault};

use octets::all_between;
use refusal::{Cause, Refusal, check_room};

// Writes the ASCII digits of src in BCD: 21 where a byte of src is no digit, then 14.
pub fn encode(src: &[u8], out: &mut [u8]) -> Result<usize, Refusal>
    ensures answers { result ≡ converted (encode_fault src.now) (packed src.now) out.old }
    ensures tells { told result ≡ told (converted (encode_fault src.now) (packed src.now) out.old) }
    ensures writes { out.new ≡ converted_into (encode_fault src.now) (packed src.now) out.old }
{
    encode_fault(src)?;
    let n = bytes_of(src.len());
    check_room(n, out)?;
    put_packed(src, out);
    Ok(n)
}

// Writes the given count of ASCII digits from the BCD of src: 23 where src is not half of them bytes long, rounded up;
// 22 where a half-byte is over 9 or the spare leading digit of an odd count is not 0; then 14.
pub fn decode(src: &[u8], digits: usize, out: &mut [u8]) -> Result<usize, Refusal>
    ensures answers { result ≡ converted (decode_fault digits src.now) (unpacked digits src.now) out.old }
    ensures tells { told result ≡ told (converted (decode_fault digits src.now) (unpacked digits src.now) out.old) }
    ensures writes { out.new ≡ converted_into (decode_fault digits src.now) (unpacked digits src.now) out.old }
{
    decode_fault(src, digits)?;
    check_room(digits, out)?;
    put_unpacked(src, digits, out);
    Ok(digits)
}

// How many bytes n digits take. No sum here is over n, however large it is.
pub fn bytes_of(n: usize) -> usize
    ensures { result ≡ bytes_of n }
{
    n / 2 + n % 2
}

fn encode_fault(src: &[u8]) -> Result<(), Cause>
    ensures { result ≡ encode_fault src.now }
{
    if !all_between(src, b'0', b'9') {
        return Err(Cause::NotDigits);
    }
    Ok(())
}

fn put_packed(src: &[u8], out: &mut [u8])
    requires digits { all is_digit src.now ≡ true }
    requires room { bytes_of (length src.now) ≤ length out.old }
    ensures { out.new ≡ lay (packed src.now) out.old }
{
    for k in 0..bytes_of(src.len()) {
        let high = value_at(src, 2 * k);
        let low = value_at(src, 2 * k + 1);
        out[k] = high * 16 + low;
    }
}

// What the digit at j is worth, counted with the leading 0 where the count of src is odd.
fn value_at(src: &[u8], j: usize) -> u8
    requires digits { all is_digit src.now ≡ true }
    requires j_in_bounds { j < length (evened src.now) }
    ensures value { result ≡ get_or (evened src.now) j 0 - 48 }
    ensures small { result ≤ 9 }
{
    let odd = src.len() % 2;
    if j < odd { 0 } else { src[j - odd] - b'0' }
}

// What is wrong with src as the BCD of so many digits: 23, then 22.
pub fn decode_fault(src: &[u8], digits: usize) -> Result<(), Cause>
    ensures { result ≡ decode_fault digits src.now }
{
    if src.len() != bytes_of(digits) {
        return Err(Cause::ByteCountWrong);
    }
    if !all_bcd(src) || !spare_zero(src, digits) {
        return Err(Cause::NotBcd);
    }
    Ok(())
}

// Whether no half-byte of src is over 9.
fn all_bcd(src: &[u8]) -> bool
    ensures { result ≡ all is_bcd src.now }
{
    src.iter().all(|b| is_bcd(*b))
}

// Whether neither half of b is over 9.
#[tactic(auto, unfolding(crate::specs::Bcd::is_bcd))]
pub fn is_bcd(b: u8) -> bool
    ensures { result ≡ is_bcd b }
{
    b / 16 <= 9 && b % 16 <= 9
}

// Whether the spare leading digit is 0, where the count is odd and there is one.
#[tactic(auto, unfolding(crate::specs::Bcd::spare_zero))]
fn spare_zero(src: &[u8], digits: usize) -> bool
    ensures { result ≡ spare_zero digits src.now }
{
    digits % 2 == 0 || src.is_empty() || src[0] / 16 == 0
}

fn put_unpacked(src: &[u8], digits: usize, out: &mut [u8])
    requires whole { length src.now ≡ bytes_of digits }
    requires room { digits ≤ length out.old }
    ensures { out.new ≡ lay (unpacked digits src.now) out.old }
{
    let odd = digits % 2;
    for i in 0..digits {
        out[i] = digit_at(src, odd + i);
    }
}

// The half-byte at j as a digit, counted from the high half of the first byte.
fn digit_at(src: &[u8], j: usize) -> u8
    requires { j < length src.now + length src.now }
    ensures { result ≡ get_or (spread src.now) j 0 }
{
    let b = src[j / 2];
    if j % 2 == 0 {
        b'0' + b / 16
    } else {
        b'0' + b % 16
    }
}
