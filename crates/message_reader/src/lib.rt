// The reader: reads a message without changing it, and notes where each field's content is. 01, "The message" and "Notes".
#![tactic(auto)]

ghost use Rattle.std.specs.Prelude.{◌≡◌, ℕ, ◌≤◌, ◌+◌, ◌*◌, length, drop};
ghost use Rattle.octets.specs.Lists.{lay};
ghost use Rattle.field_table.specs.House.{house};
ghost use Rattle.field_table.specs.Codes.{decoded};
ghost use Rattle.bitmap.specs.Bitmaps.{fields_of};
ghost use Rattle.bitmap_read.specs.Found.{maps_of};
ghost use Rattle.message_notes.specs.Dialect.{plain_form, note_size, dialect, notes_room};
ghost use Rattle.message_notes.specs.Notes.{notes_of, field_notes};
ghost use Rattle.message_reader.specs.Reader.{told_read, head_read, read_fields, entries_of, read_body, reading_with, read_answer, notes_after};

use refusal::{Cause, Refusal};

// The bytes used and the count of bitmaps.
#[derive(Clone, Copy)]
pub struct Accepted {
    pub used: usize,
    pub bitmaps: usize,
}

// Reads the message at the front of an input, and writes its notes to the front of notes. A refusal leaves notes as they were.
pub fn read(message: &[u8], notes: &mut [u8]) -> Result<Accepted, Refusal>
    ensures answers { result ≡ read_answer (dialect house) message.now notes.old }
    ensures writes { notes.new ≡ notes_after (dialect house) message.now notes.old }
    ensures tells { told_read result ≡ told_read (read_answer (dialect house) message.now notes.old) }
{
    if notes.len() < message_notes::NOTES_ROOM {
        return Err(Cause::NotesTooShort.at(0, 0));
    }
    let bitmaps = read_head(message)?;
    let table = field_table::house_table();
    read_by(message, bitmaps, &table, notes)
}

// Reads the fields that the bitmaps of a message with a good head name, by the table lent, and writes its notes.
// Message, count and table go on apart: a struct of them would stand in each clause, in front of what it says, for two routines.
fn read_by(
    message: &[u8],
    bitmaps: usize,
    table: &[u16],
    notes: &mut [u8],
) -> Result<Accepted, Refusal>
    requires headed { head_read (dialect (decoded table.now)).most message.now ≡ Ok bitmaps }
    requires room { notes_room (dialect (decoded table.now)) ≤ length notes.old }
    ensures answers { result ≡ read_answer (dialect (decoded table.now)) message.now notes.old }
    ensures writes { notes.new ≡ notes_after (dialect (decoded table.now)) message.now notes.old }
{
    let start = 4 + 8 * bitmaps;
    let list = bitmap::list_fields(&message[4..start]);
    let fields = list.as_slice();
    let used = read_fields(message, start, fields, table)?;
    write_notes(message, bitmaps, used, fields, table, notes);
    Ok(Accepted { used, bitmaps })
}

// Reads the MTI and finds how many bitmaps there are.
#[tactic(auto, unfolding(crate::specs::Reader::head_read))]
fn read_head(message: &[u8]) -> Result<usize, Refusal>
    ensures { result ≡ head_read (dialect house).most message.now }
{
    if message.len() < 12 {
        return Err(Cause::MessageTooShort.at(0, 0));
    }
    let digits = octets::lead_between(&message[..4], b'0', b'9');
    if digits < 4 {
        return Err(Cause::MtiNotDigits.at(0, digits));
    }
    bitmap_read::read_bitmaps(message, 4)
}

// Reads the fields one after the other, the first at start, each from the rest of the message. Nothing is written.
fn read_fields(message: &[u8], start: usize, fields: &[u8], table: &[u16]) -> Result<usize, Refusal>
    requires { start ≤ length message.now }
    ensures { result ≡ read_fields (decoded table.now) start fields.now (drop start message.now) }
{
    let mut at = start;
    for field in fields {
        let field = usize::from(*field);
        match field_read::read_field(&message[at..], field, table) {
            Err(cause) => return Err(cause.at(field, at)),
            Ok(content) => at += content.start + content.length,
        }
    }
    Ok(at)
}

// Writes the notes of a message that is known to be good.
fn write_notes(
    message: &[u8],
    bitmaps: usize,
    used: usize,
    fields: &[u8],
    table: &[u16],
    notes: &mut [u8],
)
    requires few { bitmaps ≤ (dialect (decoded table.now)).most }
    requires whole { 4 + 8 * bitmaps ≤ length message.now }
    requires listed { fields.now ≡ fields_of (maps_of 4 message.now bitmaps) bitmaps }
    requires room { notes_room (dialect (decoded table.now)) ≤ length notes.old }
    requires read { read_body (decoded table.now) message.now bitmaps ≡ Ok used }
    ensures { notes.new ≡ lay (notes_of plain_form (reading_with (decoded table.now) message.now bitmaps) used) notes.old }
{
    message_notes::put_head(&message[..4], bitmaps, notes);
    let written = write_fields(
        message,
        4 + 8 * bitmaps,
        fields,
        table,
        &mut notes[message_notes::HEAD_SIZE..],
    );
    let end = message_notes::HEAD_SIZE + written;
    message_notes::put_end(used, &mut notes[end..]);
}

// Writes a note for each field, one behind the other, and answers how many bytes they take. The message is known to be good, and no
// content is looked at again.
fn write_fields(
    message: &[u8],
    start: usize,
    fields: &[u8],
    table: &[u16],
    notes: &mut [u8],
) -> usize
    requires start_in_bounds { start ≤ length message.now }
    requires room { note_size plain_form * length fields.now ≤ length notes.old }
    requires read { (u : ℕ) × (read_fields (decoded table.now) start fields.now (drop start message.now) ≡ Ok u) }
    ensures size { result ≡ length (field_notes plain_form (entries_of (decoded table.now) start fields.now (drop start message.now))) }
    ensures writes { notes.new ≡ lay (field_notes plain_form (entries_of (decoded table.now) start fields.now (drop start message.now))) notes.old }
{
    let mut at = start;
    let mut written: usize = 0;
    for field in fields {
        let field = usize::from(*field);
        let Ok(content) = field_read::place_field(&message[at..], field, table) else {
            return written;
        };
        message_notes::put_field(
            field,
            at + content.start,
            content.length,
            &mut notes[written..],
        );
        at += content.start + content.length;
        written += message_notes::FIELD_NOTE_SIZE;
    }
    written
}
