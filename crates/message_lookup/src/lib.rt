// Lookup: where a field's content lies in the values, and the content itself. 01, "Notes" and "Lookup walks".
#![tactic(auto)]

ghost use Rattle.std.specs.Prelude.{◌≡◌, ◌+◌, ◌≤◌, length, take, drop};
ghost use Rattle.field_table.specs.House.{house};
ghost use Rattle.message_notes.specs.Dialect.{plain_form, head_size, dialect};
ghost use Rattle.message_walk.specs.Walk.{listed_in};
ghost use Rattle.message_lookup.specs.Lookup.{found_in, looked_up, told_found, start_of, size_of};

use message_notes::Note;
use refusal::{Cause, Refusal};

// Where a content lies in the values.
#[derive(Clone, Copy)]
pub struct Place {
    pub offset: usize,
    pub length: usize,
}

// Looks a field up. The notes may come from anywhere: all of them are judged, also where the field was met early.
pub fn look_up(values: &[u8], notes: &[u8], number: usize) -> Result<Place, Refusal>
    ensures answers { result ≡ looked_up (dialect house) values.now notes.now number }
    ensures tells { told_found result ≡ told_found (looked_up (dialect house) values.now notes.now number) }
{
    let walk = message_walk::walk(values, notes)?;
    find(notes, number, walk.end.at)
}

// The field's content, as a part of the values; the empty part at their front where lookup refuses.
// An empty part and no `Option`: the promise says so.
pub fn content<'a, 'b>(values: &'a [u8], notes: &'b [u8], number: usize) -> &'a [u8]
    ensures bytes { result.now ≡ take (size_of (looked_up (dialect house) values.now notes.now number)) (drop (start_of (looked_up (dialect house) values.now notes.now number)) values.now) }
    ensures place { (result.ref_ptr.0 ≡ values.entry.ref_ptr.0) × (result.ref_ptr.1 ≡ values.entry.ref_ptr.1 + start_of (looked_up (dialect house) values.now notes.now number)) }
{
    let Ok(Place { offset, length }) = look_up(values, notes, number) else {
        return &values[..0];
    };
    let end = offset + length;
    &values[offset..end]
}

// Finds the field among notes that have passed; end is the place of the end note.
// By place, as notes are defined: an iterator of them is a type, an impl and two ghost members more, for three such loops.
fn find(notes: &[u8], number: usize, end: usize) -> Result<Place, Refusal>
    requires { head_size ≤ length notes.now }
    ensures { result ≡ found_in number end (listed_in plain_form notes.now) }
{
    let mut at = message_notes::HEAD_SIZE;
    while let Note::Field {
        number: here,
        offset,
        length,
    } = message_notes::read_note(&notes[at..])
    {
        if here == number {
            return Ok(Place { offset, length });
        }
        at += message_notes::FIELD_NOTE_SIZE;
    }
    Err(Cause::FieldAbsent.at(number, end))
}
