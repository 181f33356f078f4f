// The field table by number: how many length digits, the length, the class. 01, "Field table".
#![tactic(auto, unfolding(crate::specs::Codes::code_in, crate::specs::Codes::decoded))]

ghost use Rattle.std.specs.Prelude.{◌≡◌, ◌≤◌};
ghost use Rattle.octets.specs.Lists.{either, all};
ghost use Rattle.octets.specs.Numbers.{is_ascii};
ghost use Rattle.field_table.specs.Table.{is_binary};
ghost use Rattle.field_table.specs.House.{house};
ghost use Rattle.field_table.specs.Codes.{class_by_code, code_in, decoded, house_codes};

// n, a, an, ans, ns, z, x+n and b.
#[derive(Clone, Copy, PartialEq, Eq, Debug)]
pub enum Class {
    N,
    A,
    An,
    Ans,
    Ns,
    Z,
    Xn,
    B,
}

// The house table, one number for each field: laid once by whoever reads or writes a message, and lent from there.
pub fn house_table() -> [u16; 193]
    ensures codes { result ≡ house_codes }
    ensures means { decoded result ≡ house }
{
    HOUSE
}

// By the lent slice and by no struct around it: contracts say `decoded table.now` all the same, since the view of a struct cannot be a
// record of functions, and a struct with an array of 193 takes fewer inputs than a slice.
// How many length digits field number has: none where it is fixed, two or three where it is variable; 0 where the table has no such field.
pub fn width_in(table: &[u16], number: usize) -> usize
    ensures value { result ≡ (decoded table.now).width number }
    ensures small { result ≤ 3 }
{
    usize::from(code_in(table, number) / 1024 % 4)
}

// The length of field number where it is fixed, else its greatest length.
pub fn most_in(table: &[u16], number: usize) -> usize
    ensures { result ≡ (decoded table.now).most number }
{
    usize::from(code_in(table, number) % 1024)
}

// The class of field number; b where the table has no such field.
pub fn class_in(table: &[u16], number: usize) -> Class
    ensures { result ≡ (decoded table.now).class number }
{
    Class::from(code_in(table, number) / 4096)
}

// The code of field number; 0 where there is none.
fn code_in(table: &[u16], number: usize) -> u16
    ensures { result ≡ code_in table.now number }
{
    table.get(number).copied().unwrap_or(0)
}

// Whether contents of the class may hold any byte; those of the others are text.
pub fn is_binary(class: Class) -> bool
    ensures { result ≡ is_binary class }
{
    class == Class::B
}

impl Class {
    // Whether contents of the class may hold these bytes. 01: "text is any bytes up to 0x7F, binary is any bytes".
    pub fn allows(self, content: &[u8]) -> bool
        ensures { result ≡ either (is_binary self) (all is_ascii content.now) }
    {
        is_binary(self) || octets::all_between(content, 0, octets::LAST_ASCII)
    }
}

// The class that a number stands for.
impl From<u16> for Class {
    ghost from_gives = { λ code class. class ≡ class_by_code code };

    fn from(code: u16) -> Class {
        match code {
            1 => Class::N,
            2 => Class::A,
            3 => Class::An,
            4 => Class::Ans,
            5 => Class::Ns,
            6 => Class::Z,
            7 => Class::Xn,
            _ => Class::B,
        }
    }
}

// The house table, by number from 0 to 192: the length or greatest length, 1024 times the number of length digits, and 4096 times the
// number of the class.
const HOUSE: [u16; 193] = [
    0, 0, 6163, 4102, 4108, 4108, 4108, 4106, 4104, 4104, 4104, 4102, 4102, 4100, 4100, 4100, 4100,
    4100, 4100, 4099, 4099, 4099, 4099, 4099, 4099, 4098, 4098, 4097, 28681, 28681, 28681, 28681,
    6155, 6155, 22556, 26661, 7272, 12300, 12294, 12290, 12291, 16392, 16399, 16424, 14361, 14412,
    16359, 16359, 16359, 4099, 4099, 4099, 32776, 4112, 15480, 36839, 20455, 20455, 20455, 20455,
    20455, 20455, 20455, 20455, 32776, 0, 4097, 4098, 4099, 4099, 4099, 4100, 4100, 4102, 4106,
    4106, 4106, 4106, 4106, 4106, 4106, 4106, 4108, 4108, 4108, 4108, 4112, 4112, 4112, 4112, 4138,
    12289, 12290, 12293, 12295, 12330, 32776, 28689, 16409, 6155, 6155, 18449, 18460, 18460, 19556,
    20455, 20455, 20455, 20455, 20455, 20455, 20455, 20455, 20455, 20455, 20455, 20455, 20455,
    20455, 20455, 20455, 20455, 20455, 20455, 20455, 20455, 20455, 20455, 32776, 20455, 20455,
    20455, 20455, 20455, 20455, 20455, 20455, 20455, 20455, 20455, 20455, 20455, 20455, 20455,
    20455, 20455, 20455, 20455, 20455, 20455, 20455, 20455, 20455, 20455, 20455, 20455, 20455,
    20455, 20455, 20455, 20455, 20455, 20455, 20455, 20455, 20455, 20455, 20455, 20455, 20455,
    20455, 20455, 20455, 20455, 20455, 20455, 20455, 20455, 20455, 20455, 20455, 20455, 20455,
    20455, 20455, 20455, 20455, 20455, 20455, 20455, 20455, 20455, 32776,
];
