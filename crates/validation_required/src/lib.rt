// Required fields, by the MTI. 01, "Checks and conversions".
#![tactic(auto)]

ghost use Rattle.std.specs.Prelude.{◌≡◌};
ghost use Rattle.refusal.specs.Refusals.{told_checked};
ghost use Rattle.field_table.specs.House.{house};
ghost use Rattle.bitmap.specs.Bitmaps.{has_field};
ghost use Rattle.message_notes.specs.Dialect.{dialect};
ghost use Rattle.validation_required.specs.Required.{first_missing, required_by, required_in};

use bitmap::FieldSet;
use refusal::{Cause, Refusal};

// Checks that the notes name every field that their MTI requires: one walk, and the fields asked of the set that it gathered. Malformed
// notes are answered as by lookup.
pub fn check_required(values: &[u8], notes: &[u8]) -> Result<(), Refusal>
    ensures answers { result ≡ required_in (dialect house) values.now notes.now }
    ensures tells { told_checked result ≡ told_checked (required_in (dialect house) values.now notes.now) }
{
    let walk = message_walk::walk(values, notes)?;
    match first_missing(message_notes::mti_in(notes), walk.fields) {
        None => Ok(()),
        Some(field) => Err(Cause::RequiredMissing.at(field, 0)),
    }
}

// The first of the fields that the MTI requires and that is missing.
#[tactic(auto, unfolding(crate::specs::Required::first_missing))]
fn first_missing(mti: &[u8], fields: FieldSet) -> Option<usize>
    ensures { result ≡ first_missing (has_field fields.bits) (required_by mti.now) }
{
    required_by(mti).iter().copied().find(|f| !fields.has(*f))
}

// The fields that the MTI requires, in 01's order: card and amount of a request, whose second digit is 1 or 2 and whose third is 0; the
// response code of a response, whose third digit is 1.
#[tactic(auto, unfolding(crate::specs::Required::required_by, crate::specs::Required::required_more, crate::specs::Required::required_of_response, crate::specs::Required::is_card_request, crate::specs::Required::is_response))]
fn required_by(mti: &[u8]) -> &'static [usize]
    ensures { result.now ≡ required_by mti.now }
{
    match mti {
        [_, b'1' | b'2', b'0', ..] => &[3, 11, 12, 13, 2, 4],
        [_, _, b'1', ..] => &[3, 11, 12, 13, 39],
        _ => &[3, 11, 12, 13],
    }
}
