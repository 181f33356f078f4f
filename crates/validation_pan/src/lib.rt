// The check of a primary account number (PAN), by Luhn's formula. 01, "Checks and conversions".
#![tactic(auto)]

ghost use Rattle.std.specs.Prelude.{◌≡◌, ◌-◌, ◌%◌, ◌<◌, ◌≤◌, length};
ghost use Rattle.refusal.specs.Refusals.{checked, told_checked};
ghost use Rattle.validation_pan.specs.Pan.{digits_in, worth, luhn_sum, is_pan, pan_fault};

use refusal::{Cause, Refusal};

// How many digits a PAN has, at least and at most.
const LEAST_DIGITS: usize = 12;

const MOST_DIGITS: usize = 19;

// Checks one content as a PAN.
pub fn check_pan(content: &[u8]) -> Result<(), Refusal>
    ensures answers { result ≡ checked (pan_fault content.now) 0 }
    ensures tells { told_checked result ≡ told_checked (checked (pan_fault content.now) 0) }
{
    refusal::answer_check(pan_fault(content), 0)
}

// What is wrong with the content as a PAN: 17, where something is.
#[tactic(auto, unfolding(crate::specs::Pan::pan_fault))]
pub fn pan_fault(content: &[u8]) -> Result<(), Cause>
    ensures { result ≡ pan_fault content.now }
{
    if !is_pan(content) {
        return Err(Cause::PanFails);
    }
    Ok(())
}

#[tactic(auto, unfolding(crate::specs::Pan::is_pan, octets::specs::Lists::between))]
fn is_pan(content: &[u8]) -> bool
    ensures { result ≡ is_pan content.now }
{
    (LEAST_DIGITS..=MOST_DIGITS).contains(&count_digits(content)) && luhn_remainder(content) == 0
}

// How many bytes of s are digits.
fn count_digits(s: &[u8]) -> usize
    ensures { result ≡ length (digits_in s.now) }
{
    // A loop: `filter` and `count` take half as many instructions again on a long content.
    let mut count: usize = 0;
    for b in s {
        if octets::is_between(*b, b'0', b'9') {
            count += 1;
        }
    }
    count
}

// The sum over the digits of s, from the right, modulo 10: every second one is doubled. Bytes that are no digits are passed over.
fn luhn_remainder(s: &[u8]) -> usize
    ensures { result ≡ luhn_sum (digits_in s.now) % 10 }
{
    // A loop: a chain's `sum` may overflow, and each digit turns over whether the next one is doubled.
    let mut sum: usize = 0;
    let mut doubles = false;
    for b in s.iter().rev() {
        if octets::is_between(*b, b'0', b'9') {
            sum = (sum + worth_of(*b, doubles)) % 10;
            doubles = !doubles;
        }
    }
    sum
}

// What the digit b adds to the sum.
#[tactic(auto, unfolding(crate::specs::Pan::worth))]
fn worth_of(b: u8, doubles: bool) -> usize
    requires { 48 ≤ b }
    ensures value { result ≡ worth doubles (b - 48) }
    ensures small { result < 512 }
{
    let d = usize::from(b - b'0');
    let twice = 2 * d;
    if !doubles {
        d
    } else if twice <= 9 {
        twice
    } else {
        twice - 9
    }
}
