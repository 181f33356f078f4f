// Bitmaps: which fields a message has. 01, "The message".
#![tactic(auto)]

ghost use Rattle.std.specs.Prelude.{◌≡◌, ℕ, ◌*◌, ◌<◌, ◌≤◌, min, true, List, length, take};
ghost use Rattle.octets.specs.Lists.{all, between, placed};
ghost use Rattle.bitmap.specs.Bits.{bit_of};
ghost use Rattle.bitmap.specs.Bitmaps.{is_field, has_field, fields_of, unchained, bit_numbers, no_fields, with_field, chain, map_byte, maps_from, maps_for};

use std::marker::Model;

// A set of fields, as 24 bytes of bits placed as in the bitmaps.
#[derive(Clone, Copy)]
pub struct FieldSet {
    bits: [u8; 24],
}

// Fields as a list, in fixed memory: their numbers, at the front of 192 bytes; the others are zero. Contracts see the numbers alone, from
// which the bytes follow.
#[derive(Clone, Copy)]
pub struct FieldList {
    count: usize,
    numbers: [u8; 192],
}

impl Model for FieldList {
    ghost use Rattle.std.specs.Prelude.{◌≡◌, ℕ, ◌*◌, ◌≤◌, List, length, take, replicate};
    ghost use Rattle.std.proofs.Common.{sym};
    ghost use Rattle.octets.specs.Lists.{lay};
    ghost use Rattle.octets.proofs.Fronts.{front_length};

    ghost Value = { List ℕ };

    ghost view = { λ l. take l.count l.numbers };

    ghost invariant = { λ l. (l.count ≤ 192) × (l.numbers ≡ lay (take l.count l.numbers) (replicate 192 0)) };

    ghost inverse = { λ v. record { count = length v; numbers = lay v (replicate 192 0) } };

    ghost inverse_ok = { λ l h i. record { count = front_length 192 l.count l.numbers h.0 h.1 i; numbers = sym h.1 i } };
}

impl FieldList {
    pub fn as_slice(&self) -> &[u8]
        ensures { result.now ≡ self.now }
    {
        &self.numbers[..self.count]
    }
}

// Up to three bitmaps, in fixed memory: their count, and their bytes at the front of 24; the others are zero.
// They are made from a count and a set of fields: no bit can be set or cleared by itself.
#[derive(Clone, Copy)]
pub struct Bitmaps {
    count: usize,
    bytes: [u8; 24],
}

impl FieldSet {
    // The empty set. Not by Default: the name says which set it is.
    pub fn none() -> FieldSet
        ensures { result.bits ≡ no_fields }
    {
        FieldSet { bits: [0; 24] }
    }

    // The set with one field more. A number that is no field changes nothing: bits 1 and 65 are never set here.
    #[tactic(auto, using(crate::proofs::Maps::field_low, crate::proofs::Maps::field_high, crate::proofs::Bits::or_bit), unfolding(crate::specs::Bitmaps::with_field))]
    pub fn with(self, field: usize) -> FieldSet
        ensures { result.bits ≡ with_field self.bits field }
    {
        let mut bits = self.bits;
        if is_field(field) {
            let k = field - 1;
            bits[k / 8] |= 128 >> (k % 8);
        }
        FieldSet { bits }
    }

    pub fn has(self, field: usize) -> bool
        ensures { result ≡ has_field self.bits field }
    {
        has_field(&self.bits, field)
    }

    // The set as 24 bytes.
    pub fn to_bytes(self) -> [u8; 24]
        ensures { result ≡ self.bits }
    {
        self.bits
    }
}

impl Bitmaps {
    // The bitmaps for a set of fields: bits 1 and 65 follow from the count. A count over 3 is taken for 3, and a count of 0
    // makes no bitmap. A field beyond the last bitmap has no bit there: writers refuse it before they come here.
    #[tactic(auto, using(crate::proofs::ByBits::maps_made))]
    pub fn of(count: usize, fields: FieldSet) -> Bitmaps
        ensures count { result.count ≡ min count 3 }
        ensures bytes { result.bytes ≡ maps_for (min count 3) fields.bits }
    {
        let count = count.min(3);
        Bitmaps {
            count,
            bytes: map_bytes(count, fields.bits),
        }
    }

    // Their bytes, eight for each, and zero after them.
    pub fn to_bytes(self) -> [u8; 24]
        ensures { result ≡ self.bytes }
    {
        self.bytes
    }
}

// Whether field is the number of a field: 2 to 192 without 65.
#[tactic(auto, unfolding(octets::specs::Lists::between, crate::specs::Bitmaps::is_field))]
pub fn is_field(field: usize) -> bool
    ensures { result ≡ is_field field }
{
    (2..=192).contains(&field) && field != 65
}

// Whether field is present in bitmaps, or in a set of fields.
#[tactic(auto, unfolding(crate::specs::Bitmaps::has_field))]
pub fn has_field(bits: &[u8], field: usize) -> bool
    ensures { result ≡ has_field bits.now field }
{
    is_field(field) && is_set(bits, field)
}

// The numbers of the fields present, rising, a byte at a time. They stop with byte 24, since fields stop at 192.
pub fn list_fields(bits: &[u8]) -> FieldList
    ensures { result ≡ fields_of bits.now 3 }
{
    let mut numbers = [0u8; 192];
    let mut count = 0;
    for at in 0..bits.len().min(24) {
        count += list_bits(unchain(at, bits[at]), 8 * at + 1, &mut numbers[count..]);
    }
    FieldList { count, numbers }
}

// Byte `at` of bitmaps, b, without bits 1 and 65, which are no fields.
#[tactic(auto, unfolding(crate::specs::Bitmaps::unchained))]
fn unchain(at: usize, b: u8) -> u8
    ensures { result ≡ unchained at b }
{
    match at {
        0 | 8 => chained(false, b),
        _ => b,
    }
}

// Writes the numbers of the bits set in b, whose high bit is number first, to the front of numbers, and answers how many.
#[tactic(auto, using(crate::proofs::Listed::first_below, crate::proofs::Listed::others_below, crate::proofs::Listed::listing_none, crate::proofs::Listed::listing_fits))]
fn list_bits(b: u8, first: usize, numbers: &mut [u8]) -> usize
    requires first_bound { first ≤ 248 }
    requires room { 8 ≤ length numbers.old }
    ensures count { result ≡ length (bit_numbers b first) }
    ensures writes { numbers.new ≡ placed (bit_numbers b first) numbers.old }
{
    // While bits are left: each turn goes to the next one set; a `for` over all eight would test each, and is no plainer.
    let mut rest = b;
    let mut n = 0;
    while rest != 0 {
        let i = rest.leading_zeros() as usize;
        numbers[n] = (first + i) as u8;
        n += 1;
        rest ^= 128 >> i;
    }
    n
}

// Bit number of the bytes, from the high bit of the first, from 1. There is no bit 0 and none past the end.
#[tactic(auto, unfolding(crate::specs::Bits::bit_of))]
pub fn is_set(bytes: &[u8], number: usize) -> bool
    ensures { result ≡ bit_of bytes.now number }
{
    let Some(k) = number.checked_sub(1) else {
        return false;
    };
    let high = 7 - k % 8;
    bytes.get(k / 8).is_some_and(|b| (b >> high) % 2 == 1)
}

fn map_bytes(count: usize, bits: [u8; 24]) -> [u8; 24]
    requires { count ≤ 3 }
    ensures made { result ≡ maps_from count bits 24 0 }
    ensures bytes { all (between 0 255) result ≡ true }
{
    let mut bytes = [0u8; 24];
    for i in 0..8 * count {
        bytes[i] = map_byte(count, i, bits[i]);
    }
    bytes
}

// Byte i of the bitmaps, for fields whose bits there are b.
#[tactic(auto, unfolding(crate::specs::Bitmaps::map_byte))]
fn map_byte(count: usize, i: usize, b: u8) -> u8
    requires { i < 8 * count }
    ensures { result ≡ map_byte count i b }
{
    match i {
        0 => chained(2 <= count, b),
        8 => chained(3 <= count, b),
        _ => b,
    }
}

// b with its first bit as `on` says.
fn chained(on: bool, b: u8) -> u8
    ensures { result ≡ chain on b }
{
    if on { 128 + b % 128 } else { b % 128 }
}
