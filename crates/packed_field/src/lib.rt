// One field of a message in either script, plain or packed: where it stands, and whether it is good. 02, P3.
#![tactic(auto)]

ghost use Rattle.std.specs.Prelude.{◌≡◌, true, ◌≤◌, length};
ghost use Rattle.octets.specs.Lists.{lead};
ghost use Rattle.field_table.specs.Codes.{decoded};
ghost use Rattle.field_read.specs.Items.{length_of};
ghost use Rattle.packed_field.specs.Scripts.{size_of, is_spelt, is_part, digits_of, carried_into, other};
ghost use Rattle.packed_field.specs.Items.{is_numeric, content_size, is_content, fault_in, content_fault, place_item, judge_item};

use field_table::Class;
use refusal::Cause;

// How the digits of an MTI, of a length and of a content of class n are spelt: plain, a byte each, or packed, in BCD. Nothing else of a
// message differs.
#[derive(Clone, Copy)]
pub enum Script {
    Plain,
    Packed,
}

// A field at the front of the rest: its length digits take start bytes, its content has count digits or bytes and takes size bytes behind
// them, and in the other script the whole field takes carried bytes.
#[derive(Clone, Copy)]
pub struct Item {
    pub start: usize,
    pub count: usize,
    pub size: usize,
    pub carried: usize,
}

impl Script {
    // The other script.
    pub fn other(self) -> Script
        ensures { result ≡ other self }
    {
        match self {
            Script::Plain => Script::Packed,
            Script::Packed => Script::Plain,
        }
    }

    // How many bytes so many digits take.
    #[tactic(auto, unfolding(crate::specs::Scripts::size_of))]
    pub fn size_of(self, digits: usize) -> usize
        ensures { result ≡ size_of self digits }
    {
        match self {
            Script::Plain => digits,
            Script::Packed => encoding_bcd::bytes_of(digits),
        }
    }

    // Why digits are refused that are none: 22 where they are packed, else for that cause.
    pub fn fault(self, plain: Cause) -> Cause
        ensures { result ≡ fault_in self plain }
    {
        match self {
            Script::Plain => plain,
            Script::Packed => Cause::NotBcd,
        }
    }
}

// How many bytes at the front of s hold digits and nothing else.
pub fn lead_parts(s: &[u8], script: Script) -> usize
    ensures { result ≡ lead (is_part script) s.now }
{
    s.iter().take_while(|b| is_part(**b, script)).count()
}

#[tactic(auto, unfolding(crate::specs::Scripts::is_part))]
fn is_part(b: u8, script: Script) -> bool
    ensures { result ≡ is_part script b }
{
    match script {
        Script::Plain => octets::is_between(b, b'0', b'9'),
        Script::Packed => encoding_bcd::is_bcd(b),
    }
}

// Writes the digits of src in the other script to the front of out; leaves it where the BCD conversion refuses src, or they do not fit. Of
// plain digits the count is not asked.
#[tactic(auto, unfolding(crate::specs::Scripts::carried_into))]
pub fn carry(src: &[u8], script: Script, digits: usize, out: &mut [u8])
    ensures { out.new ≡ carried_into script digits src.now out.old }
{
    let _ = match script {
        Script::Plain => encoding_bcd::encode(src, out),
        Script::Packed => encoding_bcd::decode(src, digits, out),
    };
}

// Whether src is so many digits.
#[tactic(auto, unfolding(crate::specs::Scripts::is_spelt))]
fn is_spelt(src: &[u8], script: Script, digits: usize) -> bool
    ensures { result ≡ is_spelt script digits src.now }
{
    match script {
        Script::Plain => octets::are_digits(digits, src),
        Script::Packed => encoding_bcd::decode_fault(src, digits).is_ok(),
    }
}

// Reads field number at the front of rest by the table lent, its content judged: 5, 6 or 22, 7, 5, then 21, 22 or 8. The caller adds field
// and position.
#[tactic(auto, unfolding(crate::specs::Items::judge_item))]
pub fn judge_item(rest: &[u8], number: usize, script: Script, table: &[u16]) -> Result<Item, Cause>
    ensures { result ≡ judge_item script (decoded table.now) number rest.now }
{
    let class = field_table::class_in(table, number);
    let item = place_item(rest, number, script, table)?;
    let end = item.start + item.size;
    if !is_content(&rest[item.start..end], script, class, item.count) {
        return Err(content_fault(script, class));
    }
    Ok(item)
}

// The same, but no byte of the content is asked about.
// The tests are field_read's `read_item`, in the same order; that reads the plain script alone, so that the reader stands without this one.
#[tactic(auto, unfolding(crate::specs::Items::place_item, crate::specs::Items::place_by, crate::specs::Items::place_sized))]
pub fn place_item(rest: &[u8], number: usize, script: Script, table: &[u16]) -> Result<Item, Cause>
    ensures { result ≡ place_item script (decoded table.now) number rest.now }
{
    let width = field_table::width_in(table, number);
    let most = field_table::most_in(table, number);
    let class = field_table::class_in(table, number);
    let start = script.size_of(width);
    if rest.len() < start {
        return Err(Cause::PastTheEnd);
    }
    let digits = &rest[..start];
    if !is_spelt(digits, script, width) {
        return Err(script.fault(Cause::LengthNotDigits));
    }
    let count = content_count(digits, script, width, most);
    if most < count {
        return Err(Cause::LengthOverTable);
    }
    let size = content_size(script, class, count);
    if rest.len() - start < size {
        return Err(Cause::PastTheEnd);
    }
    let across = script.other();
    let carried = across.size_of(width) + content_size(across, class, count);
    Ok(Item {
        start,
        count,
        size,
        carried,
    })
}

// How many digits or bytes the content has: as the table says where there are no length digits, else as they say.
fn content_count(digits: &[u8], script: Script, width: usize, most: usize) -> usize
    requires width_bound { width ≤ 3 }
    requires spelt { is_spelt script width digits.now ≡ true }
    ensures { result ≡ length_of width most (digits_of script width digits.now) }
{
    if width == 0 {
        return most;
    }
    match script {
        Script::Plain => octets::decimal_of(digits),
        Script::Packed => {
            let mut plain = [0u8; 3];
            carry(digits, script, width, &mut plain);
            octets::decimal_of(&plain[..width])
        }
    }
}

// Script, class and count go on apart, here and below, as the definitions take them; a struct of them would be built for three calls.
// How many bytes a content of count digits or bytes takes.
#[tactic(auto, unfolding(crate::specs::Items::content_size))]
fn content_size(script: Script, class: Class, count: usize) -> usize
    ensures { result ≡ content_size script class count }
{
    if is_numeric(class) {
        script.size_of(count)
    } else {
        count
    }
}

// Whether s is a content of that class, count digits long where they are digits.
#[tactic(auto, unfolding(crate::specs::Items::is_content))]
fn is_content(s: &[u8], script: Script, class: Class, count: usize) -> bool
    ensures { result ≡ is_content script class count s.now }
{
    if is_numeric(class) {
        is_spelt(s, script, count)
    } else {
        class.allows(s)
    }
}

// Whether contents of that class are digits: class n and no other.
pub fn is_numeric(class: Class) -> bool
    ensures { result ≡ is_numeric class }
{
    matches!(class, Class::N)
}

#[tactic(auto, unfolding(crate::specs::Items::content_fault))]
fn content_fault(script: Script, class: Class) -> Cause
    ensures { result ≡ content_fault script class }
{
    if is_numeric(class) {
        script.fault(Cause::NotDigits)
    } else {
        Cause::TextNotAscii
    }
}
