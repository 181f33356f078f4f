// Classes of contents: n, a, an, ans, ns, z, x+n and b. 01, "Classes".
#![tactic(auto, unfolding(octets::specs::Lists::between, crate::specs::Classes::is_letter))]

ghost use Rattle.std.specs.Prelude.{◌≡◌};
ghost use Rattle.field_class.specs.Classes.{allows, signed, conforms};

use field_table::Class;

// Whether the content is of the class.
pub fn is_of_class(class: Class, content: &[u8]) -> bool
    ensures { result ≡ conforms class content.now }
{
    match class {
        Class::Xn => is_signed(content),
        _ => content.iter().all(|&b| is_allowed(class, b)),
    }
}

// Whether the content is a sign, then none or more digits.
fn is_signed(content: &[u8]) -> bool
    ensures { result ≡ signed content.now }
{
    match content {
        [b'C' | b'D', digits @ ..] => octets::all_between(digits, b'0', b'9'),
        _ => false,
    }
}

// Whether the byte may stand in a content of the class; of x+n, after its sign.
fn is_allowed(class: Class, b: u8) -> bool
    ensures { result ≡ allows class b }
{
    match class {
        Class::N | Class::Xn => b.is_ascii_digit(),
        Class::A => b.is_ascii_alphabetic() || b == b' ',
        Class::An => b.is_ascii_alphanumeric() || b == b' ',
        Class::Ans => matches!(b, b' '..=b'~'),
        Class::Ns => matches!(b, b' '..=b'~') && !b.is_ascii_alphabetic(),
        Class::Z => matches!(b, b'0'..=b'?'),
        Class::B => true,
    }
}
