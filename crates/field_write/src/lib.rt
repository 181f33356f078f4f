// Writing one field: whether its content may be written, what it takes, and its bytes. 01, "Exact and cleaning writers".
#![tactic(auto)]

ghost use Rattle.std.specs.Prelude.{◌≡◌, ◌+◌, ◌≤◌, ◌↔◌, IsTrue, cond, ◌++◌, leb, length};
ghost use Rattle.octets.specs.Lists.{placed};
ghost use Rattle.octets.specs.Numbers.{decimal};
ghost use Rattle.field_table.specs.Codes.{decoded};
ghost use Rattle.field_write.specs.Fields.{is_allowed_length, text_fault, exact_fault, clean_fault, is_short, missing, pad_byte, pads_left, padded, field_into, written_size, longest};

use field_table::Class;
use refusal::Cause;

// The greatest length of a content that a note can hold, in two bytes.
pub const LONGEST: usize = 65535;

// Why the exact writer refuses the content of field number: 12 or 8. The caller adds field and position.
#[tactic(auto, unfolding(crate::specs::Fields::exact_fault))]
pub fn exact_fault(number: usize, content: &[u8], table: &[u16]) -> Result<(), Cause>
    ensures { result ≡ exact_fault (decoded table.now) number content.now }
{
    if !is_allowed_length(number, content.len(), table) {
        return Err(Cause::LengthNotAllowed);
    }
    text_fault(field_table::class_in(table, number), content)
}

// The same of the cleaning writer, which pads a content that is too short.
#[tactic(auto, unfolding(crate::specs::Fields::clean_fault))]
pub fn clean_fault(number: usize, content: &[u8], table: &[u16]) -> Result<(), Cause>
    ensures { result ≡ clean_fault (decoded table.now) number content.now }
{
    if field_table::most_in(table, number) < content.len() {
        return Err(Cause::LengthNotAllowed);
    }
    text_fault(field_table::class_in(table, number), content)
}

// Whether a content of that length may stand in field number.
#[tactic(auto, unfolding(crate::specs::Fields::is_allowed_length))]
pub fn is_allowed_length(number: usize, length: usize, table: &[u16]) -> bool
    ensures { result ≡ is_allowed_length (decoded table.now) number length }
{
    let most = field_table::most_in(table, number);
    if field_table::width_in(table, number) == 0 {
        length == most
    } else {
        length <= most
    }
}

// Whether a content of that length is padded when it is written to field number.
#[tactic(auto, unfolding(crate::specs::Fields::is_short, crate::specs::Fields::missing))]
pub fn is_short(number: usize, length: usize, table: &[u16]) -> bool
    ensures { result ≡ is_short (decoded table.now) number length }
{
    0 < missing(number, length, table)
}

// How many bytes field number takes with a content of that length; 0 for a length that no note can hold.
// 0 and no `Option`: the promise says 0 (docs/DECISIONS.md, F10).
#[tactic(auto, unfolding(crate::specs::Fields::written_size))]
pub fn written_size(number: usize, length: usize, table: &[u16]) -> usize
    ensures { result ≡ cond (leb length longest) (written_size (decoded table.now) number length) 0 }
{
    if length <= LONGEST {
        field_table::width_in(table, number) + length + missing(number, length, table)
    } else {
        0
    }
}

// Writes field number to the front of out. Where the content is too long for the field, or the field does not fit, out is left as it is.
pub fn put_field(number: usize, content: &[u8], table: &[u16], out: &mut [u8])
    ensures { out.new ≡ field_into (decoded table.now) number content.now out.old }
{
    if field_table::most_in(table, number) < content.len() {
        return;
    }
    let width = field_table::width_in(table, number);
    if width == 0 {
        let pad = missing(number, content.len(), table);
        put_padded(field_table::class_in(table, number), pad, content, out);
    } else {
        put_counted(width, content, out);
    }
}

// 8 where the class does not allow the content.
// Kept apart from its callers: within the writers' walk the loop over the bytes comes out two instructions longer.
#[inline(never)]
#[tactic(auto, unfolding(crate::specs::Fields::text_fault))]
fn text_fault(class: Class, content: &[u8]) -> Result<(), Cause>
    ensures { result ≡ text_fault class content.now }
{
    if !class.allows(content) {
        return Err(Cause::TextNotAscii);
    }
    Ok(())
}

// By how many bytes a content of that length is too short for field number; a variable one never is.
#[tactic(auto, unfolding(crate::specs::Fields::missing))]
fn missing(number: usize, length: usize, table: &[u16]) -> usize
    ensures { result ≡ missing (decoded table.now) number length }
{
    if field_table::width_in(table, number) == 0 {
        field_table::most_in(table, number).saturating_sub(length)
    } else {
        0
    }
}

// Writes the content with pad bytes of padding, on the side and of the kind that its class has.
fn put_padded(class: Class, pad: usize, content: &[u8], out: &mut [u8])
    ensures { out.new ≡ placed (padded class pad content.now) out.old }
{
    if !have_room(out, content.len(), pad) {
        return;
    }
    let b = pad_byte(class);
    if pads_left(class) {
        octets::fill(out, pad, b);
        octets::put(content, &mut out[pad..]);
    } else {
        octets::put(content, out);
        octets::fill(&mut out[content.len()..], pad, b);
    }
}

// Writes the content's length in width digits, and the content.
fn put_counted(width: usize, content: &[u8], out: &mut [u8])
    ensures { out.new ≡ placed (decimal width (length content.now) ++ content.now) out.old }
{
    if have_room(out, width, content.len()) {
        octets::put_decimal(content.len(), width, out);
        octets::put(content, &mut out[width..]);
    }
}

// Whether out has room for n bytes and k more.
fn have_room(out: &[u8], n: usize, k: usize) -> bool
    ensures { IsTrue result ↔ (n + k ≤ length out.now) }
{
    n.checked_add(k).is_some_and(|size| size <= out.len())
}

// 01: "`n` with `0` …, `b` with zero bytes …, all others with spaces".
fn pad_byte(class: Class) -> u8
    ensures { result ≡ pad_byte class }
{
    match class {
        Class::N => b'0',
        Class::B => 0,
        _ => b' ',
    }
}

// 01: "`n` … on the left, … all others … on the right".
fn pads_left(class: Class) -> bool
    ensures { result ≡ pads_left class }
{
    matches!(class, Class::N)
}
