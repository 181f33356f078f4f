// Reading one field from the rest of a message. 01, "The message" and "Reader order".
#![tactic(auto)]

ghost use Rattle.std.specs.Prelude.{◌≡◌, ◌≤◌, length};
ghost use Rattle.field_table.specs.Codes.{decoded};
ghost use Rattle.field_read.specs.Items.{length_of, read_item, read_field, place_field};

use field_table::Class;
use refusal::Cause;

// The content starts at start in the rest and is length bytes long.
#[derive(Clone, Copy)]
pub struct Content {
    pub start: usize,
    pub length: usize,
}

// Reads field number at the front of rest by the table lent, whatever it holds; the caller knows where rest stands in the message, and
// adds field and position to a refusal. A number that the table has no field for is read as an empty content: which numbers are fields,
// the bitmaps say.
#[tactic(auto, unfolding(crate::specs::Items::read_field))]
pub fn read_field(rest: &[u8], number: usize, table: &[u16]) -> Result<Content, Cause>
    ensures { result ≡ read_field (decoded table.now) number rest.now }
{
    let width = field_table::width_in(table, number);
    let most = field_table::most_in(table, number);
    let class = field_table::class_in(table, number);
    read_item(rest, width, most, class)
}

// Finds the content of field number and asks about none of its bytes: where read_field answers 8, it answers the content's place; else
// the same.
#[tactic(auto, unfolding(crate::specs::Items::place_field))]
pub fn place_field(rest: &[u8], number: usize, table: &[u16]) -> Result<Content, Cause>
    ensures { result ≡ place_field (decoded table.now) number rest.now }
{
    let width = field_table::width_in(table, number);
    let most = field_table::most_in(table, number);
    read_item(rest, width, most, Class::B)
}

// Reads a field with that many length digits, that length or greatest length, and that class.
// Handed these three and no table: by number and table, reading the typical message takes 93 instructions more.
#[tactic(auto, unfolding(crate::specs::Items::read_item, crate::specs::Items::read_sized))]
fn read_item(rest: &[u8], width: usize, most: usize, class: Class) -> Result<Content, Cause>
    requires { width ≤ 3 }
    ensures { result ≡ read_item width most class rest.now }
{
    if rest.len() < width {
        return Err(Cause::PastTheEnd);
    }
    let digits = &rest[..width];
    if !octets::all_between(digits, b'0', b'9') {
        return Err(Cause::LengthNotDigits);
    }
    let length = content_length(digits, width, most);
    if most < length {
        return Err(Cause::LengthOverTable);
    }
    if rest.len() - width < length {
        return Err(Cause::PastTheEnd);
    }
    let end = width + length;
    if !class.allows(&rest[width..end]) {
        return Err(Cause::TextNotAscii);
    }
    Ok(Content {
        start: width,
        length,
    })
}

// How long the content is: as the table says where there are no digits, else as they say.
#[tactic(auto, unfolding(crate::specs::Items::length_of), using(octets::proofs::Numbers::number_read))]
fn content_length(digits: &[u8], width: usize, most: usize) -> usize
    requires { length digits.now ≤ 3 }
    ensures { result ≡ length_of width most digits.now }
{
    if width == 0 {
        most
    } else {
        octets::decimal_of(digits)
    }
}
