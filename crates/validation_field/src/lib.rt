// The field check: whether a content may stand in a field, by 01's table. Nothing is changed. 01, "Checks and conversions".
#![tactic(auto)]

ghost use Rattle.std.specs.Prelude.{◌≡◌};
ghost use Rattle.refusal.specs.Refusals.{checked, told_checked};
ghost use Rattle.field_table.specs.House.{house};
ghost use Rattle.field_table.specs.Codes.{decoded};
ghost use Rattle.validation_field.specs.Checks.{first_failing, value_tests, field_fault, is_currency};

use refusal::{Cause, Refusal};

// Checks the content of field number: number, class, length, and for some fields the value.
pub fn check_field(number: usize, content: &[u8]) -> Result<(), Refusal>
    ensures answers { result ≡ checked (field_fault house number content.now) number }
    ensures tells { told_checked result ≡ told_checked (checked (field_fault house number content.now) number) }
{
    refusal::answer_check(field_fault(number, content), number)
}

// Why the content of field number fails: 10, 16, 12, 17 or 18, in this order.
pub fn field_fault(number: usize, content: &[u8]) -> Result<(), Cause>
    ensures { result ≡ field_fault house number content.now }
{
    let table = field_table::house_table();
    fault_by(number, content, &table)
}

// The same by the table lent.
#[tactic(auto, unfolding(crate::specs::Checks::field_fault, crate::specs::Checks::field_tests))]
pub fn fault_by(number: usize, content: &[u8], table: &[u16]) -> Result<(), Cause>
    ensures { result ≡ field_fault (decoded table.now) number content.now }
{
    if !bitmap::is_field(number) {
        return Err(Cause::NumberNotAllowed);
    }
    if !field_class::is_of_class(field_table::class_in(table, number), content) {
        return Err(Cause::ClassBroken);
    }
    if !field_write::is_allowed_length(number, content.len(), table) {
        return Err(Cause::LengthNotAllowed);
    }
    value_fault(number, content)
}

// What is wrong with the value: 17 for field 2, 18 for fields 4 and 5.
#[tactic(auto, unfolding(crate::specs::Checks::value_tests, validation_pan::specs::Pan::pan_fault))]
fn value_fault(number: usize, content: &[u8]) -> Result<(), Cause>
    ensures { result ≡ first_failing (value_tests number content.now) }
{
    match number {
        2 => validation_pan::pan_fault(content),
        4 | 5 if octets::all_between(content, b'0', b'0') => Err(Cause::AmountZero),
        _ => Ok(()),
    }
}

// Whether the content is a currency code, three digits: exactly those pass the check of fields 49 to 51.
pub fn is_currency(content: &[u8]) -> bool
    ensures { result ≡ is_currency content.now }
{
    octets::are_digits(3, content)
}
