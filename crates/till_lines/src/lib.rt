// What the till program prints for an input. 01, "Checks and conversions", its last paragraph.
#![tactic(auto)]

ghost use Rattle.std.specs.Prelude.{◌≡◌, ◌≤◌, length, take};
ghost use Rattle.octets.specs.Lists.{lay};
ghost use Rattle.field_table.specs.House.{house};
ghost use Rattle.message_language.specs.Language.{entry};
ghost use Rattle.message_notes.specs.Dialect.{dialect, plain_form};
ghost use Rattle.message_notes.specs.Notes.{notes_of};
ghost use Rattle.message_reader.specs.Reader.{acceptance, read_message, reading_with};
ghost use Rattle.till_lines.specs.Lines.{input_most, text_room, named, tripled, mti_line, field_line, refused_line, reading_lines, report_size, report_text};

use message_notes::Note;
use message_reader::Accepted;
use refusal::{Cause, Refusal};

// 01: "standard input (at most 60,000 bytes)".
pub const INPUT_MOST: usize = 60000;

// Room for one byte more than is taken, so that an input that is too long shows.
pub const INPUT_ROOM: usize = 60001;

// Any report fits in this: two lines of a head, 190 lines of fields and one of the end.
pub const TEXT_ROOM: usize = 8192;

const SPACE: u8 = b' ';

const NEWLINE: u8 = b'\n';

// Writes the lines for an input to the front of text, and answers how many bytes they take. Where text has not the room
// of any report, it is left as it is and the answer is 0.
// 0 and no `Option`: the promise says 0.
pub fn report(input: &[u8], text: &mut [u8]) -> usize
    ensures answers { result ≡ report_size (dialect house) input.now text.old }
    ensures writes { text.new ≡ report_text (dialect house) input.now text.old }
{
    if text.len() < TEXT_ROOM {
        return 0;
    }
    if INPUT_MOST < input.len() {
        return put_refused(Cause::InputTooLong.at(0, 0), text);
    }
    let mut notes = [0u8; message_notes::NOTES_ROOM];
    match message_reader::read(input, &mut notes) {
        Err(refusal) => put_refused(refusal, text),
        Ok(Accepted { used, bitmaps }) => put_reading(input, used, bitmaps, &notes, text),
    }
}

// Writes the line of a refusal.
fn put_refused(refusal: Refusal, out: &mut [u8]) -> usize
    requires { text_room ≤ length out.old }
    ensures size { result ≡ length (refused_line refusal) }
    ensures writes { out.new ≡ lay (refused_line refusal) out.old }
{
    let Refusal {
        cause,
        field,
        position,
    } = refusal;
    let number = usize::from(cause.number());
    put_tripled(b"refused", number, b"field", field, b"at", position, out)
}

// Writes the lines of an input that was accepted, each behind the last: the fields' by walking the notes.
// By place, as `find` of message_lookup.
fn put_reading(input: &[u8], used: usize, bitmaps: usize, notes: &[u8], text: &mut [u8]) -> usize
    requires short { length input.now ≤ input_most }
    requires read { read_message house (dialect house).most input.now ≡ Ok (acceptance used bitmaps) }
    requires noted { take (length (notes_of plain_form (reading_with house input.now bitmaps) used)) notes.now ≡ notes_of plain_form (reading_with house input.now bitmaps) used }
    requires room { text_room ≤ length text.old }
    ensures size { result ≡ length (reading_lines (reading_with house input.now bitmaps) used) }
    ensures writes { text.new ≡ lay (reading_lines (reading_with house input.now bitmaps) used) text.old }
{
    let mut written = put_mti(&input[..4], text);
    written += put_named(b"bitmaps", bitmaps, NEWLINE, &mut text[written..]);
    let mut at = message_notes::HEAD_SIZE;
    while let Note::Field {
        number,
        offset,
        length,
    } = message_notes::read_note(&notes[at..])
    {
        written += put_field(number, offset, length, &mut text[written..]);
        at += message_notes::FIELD_NOTE_SIZE;
    }
    written + put_named(b"used", used, NEWLINE, &mut text[written..])
}

fn put_mti(mti: &[u8], out: &mut [u8]) -> usize
    requires { length (mti_line mti.now) ≤ length out.old }
    ensures size { result ≡ length (mti_line mti.now) }
    ensures writes { out.new ≡ lay (mti_line mti.now) out.old }
{
    octets::put(b"mti ", out);
    octets::put(mti, &mut out[4..]);
    let end = 4 + mti.len();
    out[end] = NEWLINE;
    end + 1
}

fn put_field(number: usize, offset: usize, size: usize, out: &mut [u8]) -> usize
    requires { length (field_line (entry number offset size)) ≤ length out.old }
    ensures size { result ≡ length (field_line (entry number offset size)) }
    ensures writes { out.new ≡ lay (field_line (entry number offset size)) out.old }
{
    put_tripled(b"field", number, b"at", offset, b"length", size, out)
}

// Writes a line of three words, each with its number.
// Call by call: a loop over pairs of word and number would have to tell the last, which ends the line.
fn put_tripled(a: &[u8], x: usize, b: &[u8], y: usize, c: &[u8], z: usize, out: &mut [u8]) -> usize
    requires { length (tripled a.now x b.now y c.now z) ≤ length out.old }
    ensures size { result ≡ length (tripled a.now x b.now y c.now z) }
    ensures writes { out.new ≡ lay (tripled a.now x b.now y c.now z) out.old }
{
    let first = put_named(a, x, SPACE, out);
    let second = first + put_named(b, y, SPACE, &mut out[first..]);
    second + put_named(c, z, NEWLINE, &mut out[second..])
}

// Writes a word, a space, a number and the byte that ends them.
fn put_named(word: &[u8], n: usize, end: u8, out: &mut [u8]) -> usize
    requires { length (named word.now n end) ≤ length out.old }
    ensures size { result ≡ length (named word.now n end) }
    ensures writes { out.new ≡ lay (named word.now n end) out.old }
{
    octets::put(word, out);
    let space = word.len();
    out[space] = SPACE;
    let start = space + 1;
    let stop = start + octets::put_numeral(n, &mut out[start..]);
    out[stop] = end;
    stop + 1
}
