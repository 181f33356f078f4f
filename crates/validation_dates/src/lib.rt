// The checks of a date, MMDD, and of a time of day, hhmmss. 01, "Checks and conversions".
#![tactic(auto)]

ghost use Rattle.std.specs.Prelude.{◌≡◌, ◌+◌, ◌≤◌, cond, length};
ghost use Rattle.octets.specs.Lists.{between};
ghost use Rattle.refusal.specs.Numbers.{date_or_time_wrong};
ghost use Rattle.refusal.specs.Refusals.{good, bad, checked, told_checked};
ghost use Rattle.validation_dates.specs.Dates.{pair, is_date, is_time, date_fault, time_fault};

use refusal::{Cause, Refusal};

// Checks one content as a date, MMDD.
#[tactic(auto, unfolding(crate::specs::Dates::date_fault))]
pub fn check_date(content: &[u8]) -> Result<(), Refusal>
    ensures answers { result ≡ checked (date_fault content.now) 0 }
    ensures tells { told_checked result ≡ told_checked (checked (date_fault content.now) 0) }
{
    answer(is_date(content))
}

// Checks one content as a time of day, hhmmss.
#[tactic(auto, unfolding(crate::specs::Dates::time_fault))]
pub fn check_time(content: &[u8]) -> Result<(), Refusal>
    ensures answers { result ≡ checked (time_fault content.now) 0 }
    ensures tells { told_checked result ≡ told_checked (checked (time_fault content.now) 0) }
{
    answer(is_time(content))
}

// What both checks answer.
#[tactic(auto, unfolding(refusal::specs::Refusals::checked))]
fn answer(holds: bool) -> Result<(), Refusal>
    ensures { result ≡ checked (cond holds good (bad date_or_time_wrong)) 0 }
{
    if !holds {
        return Err(Cause::DateOrTimeWrong.into());
    }
    Ok(())
}

#[tactic(auto, unfolding(crate::specs::Dates::is_date, octets::specs::Numbers::are_digits))]
fn is_date(s: &[u8]) -> bool
    ensures { result ≡ is_date s.now }
{
    octets::are_digits(4, s) && is_pair_between(s, 0, 1, 12) && is_pair_between(s, 2, 1, 31)
}

#[tactic(auto, unfolding(crate::specs::Dates::is_time, octets::specs::Numbers::are_digits))]
fn is_time(s: &[u8]) -> bool
    ensures { result ≡ is_time s.now }
{
    octets::are_digits(6, s)
        && is_pair_between(s, 0, 0, 23)
        && is_pair_between(s, 2, 0, 59)
        && is_pair_between(s, 4, 0, 59)
}

// Whether the two digits of s from i on spell a number between low and high.
#[tactic(auto, unfolding(crate::specs::Dates::pair, octets::specs::Lists::between))]
fn is_pair_between(s: &[u8], i: usize, low: usize, high: usize) -> bool
    requires { i + 2 ≤ length s.now }
    ensures { result ≡ between low high (pair i s.now) }
{
    (low..=high).contains(&octets::decimal_of(&s[i..i + 2]))
}
