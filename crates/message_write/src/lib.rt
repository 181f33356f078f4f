// The exact and the cleaning writer. 01, "Exact and cleaning writers".
#![tactic(auto)]

ghost use Rattle.std.specs.Prelude.{◌≡◌, cond, List, ℕ, ◌≤◌, length, drop, Ok, IfOk};
ghost use Rattle.octets.specs.Lists.{lay};
ghost use Rattle.refusal.specs.Refusals.{told, good};
ghost use Rattle.field_table.specs.House.{house};
ghost use Rattle.field_table.specs.Codes.{decoded};
ghost use Rattle.field_write.specs.Fields.{is_short};
ghost use Rattle.bitmap.specs.Bitmaps.{with_field, set_of};
ghost use Rattle.message_contents.specs.Contents.{numbers_of};
ghost use Rattle.message_notes.specs.Dialect.{plain_form, head_size, dialect};
ghost use Rattle.message_notes.specs.Notes.{count_in};
ghost use Rattle.message_walk.specs.Walk.{head_number, ending, walked, listed_in};
ghost use Rattle.message_walk.specs.Faults.{asked, fault_by};
ghost use Rattle.message_write.specs.Written.{answered, laid_out, exact_answer, exact_output, cleaned_answer, cleaned_padded, clean_answer, clean_output, clean_padded, body_of, message_in, entries_by, answer_by, output_by, padded_by, weighed_end, Asked, Sums};

use bitmap::{Bitmaps, FieldSet};
use message_notes::Note;
use message_walk::{ByRule, Ended, Judged, Rule};
use refusal::{Cause, Refusal};

// What the cleaning writer answers where it writes: how many bytes, and the set of the fields that it padded.
#[derive(Clone, Copy)]
pub struct Cleaned {
    pub length: usize,
    pub padded: FieldSet,
}

// What the first walk of a writer gathers: where it ended; the fields that the notes name, those of them that are short, and how many bytes
// they take.
#[derive(Clone, Copy)]
struct Weighed {
    end: Ended,
    fields: FieldSet,
    short: FieldSet,
    size: usize,
}

// Writes the message that notes and values stand for, to the byte. A refusal leaves out as it was.
pub fn write_exact(values: &[u8], notes: &[u8], out: &mut [u8]) -> Result<usize, Refusal>
    ensures answers { result ≡ exact_answer (dialect house) values.now notes.now out.old }
    ensures tells { told result ≡ told (exact_answer (dialect house) values.now notes.now out.old) }
    ensures writes { out.new ≡ exact_output (dialect house) values.now notes.now out.old }
{
    let table = field_table::house_table();
    let ask = ByRule {
        rule: Rule::Exact,
        table: &table,
    };
    let written = write_by(values, notes, &ask, out)?;
    Ok(written.length)
}

// Writes it with short fixed contents padded, cuts nothing, and names each field that it padded. A refusal leaves out as it was.
pub fn write_clean(values: &[u8], notes: &[u8], out: &mut [u8]) -> Result<Cleaned, Refusal>
    ensures answers { cleaned_answer result ≡ clean_answer (dialect house) values.now notes.now out.old }
    ensures tells { told (cleaned_answer result) ≡ told (clean_answer (dialect house) values.now notes.now out.old) }
    ensures padded { cleaned_padded result ≡ clean_padded (dialect house) values.now notes.now out.old }
    ensures writes { out.new ≡ clean_output (dialect house) values.now notes.now out.old }
{
    let table = field_table::house_table();
    let ask = ByRule {
        rule: Rule::Clean,
        table: &table,
    };
    write_by(values, notes, &ask, out)
}

// Writes by a rule that takes no content which the cleaning writer refuses.
fn write_by(values: &[u8], notes: &[u8], ask: &ByRule, out: &mut [u8]) -> Result<Cleaned, Refusal>
    requires { (f : ℕ) (c : List ℕ) → asked (decoded ask.now.table.now) ask.now.rule f c ≡ good → asked (decoded ask.now.table.now) Rule.Clean f c ≡ good }
    ensures answers { cleaned_answer result ≡ answer_by (decoded ask.now.table.now) values.now ask.now.rule notes.now out.old }
    ensures padded { cleaned_padded result ≡ padded_by (decoded ask.now.table.now) values.now ask.now.rule notes.now out.old }
    ensures writes { out.new ≡ output_by (decoded ask.now.table.now) values.now ask.now.rule notes.now out.old }
{
    let weighed = weigh(values, notes, ask)?;
    let length = write_ended(values, notes, &weighed, ask.table, out)?;
    Ok(Cleaned {
        length,
        padded: weighed.short,
    })
}

// Walks the notes by the rule, and gathers what is needed to write.
fn weigh(values: &[u8], notes: &[u8], ask: &ByRule) -> Result<Weighed, Refusal>
    ensures end { weighed_end result ≡ walked (dialect (decoded ask.now.table.now)) (fault_by (decoded ask.now.table.now) values.now ask.now.rule) notes.now }
    ensures sums { IfOk result (λ w. Sums (decoded ask.now.table.now) (entries_by (decoded ask.now.table.now) values.now ask.now.rule notes.now) w.fields.bits w.short.bits w.size) }
{
    message_walk::head_fault(notes)?;
    weigh_fields(values, notes, ask)
}

// The same behind a good head. By place, since a note that is refused is answered with it; a loop beside message_walk's, since a walk that
// takes a closure has to say in each contract what its turns fold to.
fn weigh_fields(values: &[u8], notes: &[u8], ask: &ByRule) -> Result<Weighed, Refusal>
    requires { head_size ≤ length notes.now }
    ensures end { weighed_end result ≡ ending plain_form (fault_by (decoded ask.now.table.now) values.now ask.now.rule) (count_in notes.now) (length notes.now) 0 head_size (drop head_size notes.now) }
    ensures sums { IfOk result (λ w. Sums (decoded ask.now.table.now) (entries_by (decoded ask.now.table.now) values.now ask.now.rule notes.now) w.fields.bits w.short.bits w.size) }
{
    let count = message_notes::count_in(notes);
    let mut fields = FieldSet::none();
    let mut short = FieldSet::none();
    let mut size: usize = 0;
    let mut last = 0;
    let mut at = message_notes::HEAD_SIZE;
    loop {
        match message_walk::judge(values, &notes[at..], count, last, ask) {
            Err(flaw) => return Err(flaw.at(at)),
            Ok(Judged::End(said)) => {
                let end = Ended { at, said };
                return Ok(Weighed {
                    end,
                    fields,
                    short,
                    size,
                });
            }
            Ok(Judged::Passed { number, length, .. }) => {
                fields = fields.with(number);
                short = with_short(short, number, length, ask.table);
                size += field_write::written_size(number, length, ask.table);
                last = number;
                at += message_notes::FIELD_NOTE_SIZE;
            }
        }
    }
}

// The set with field number, where a content of that length is short for it.
fn with_short(short: FieldSet, number: usize, length: usize, table: &[u16]) -> FieldSet
    ensures { result.bits ≡ cond (is_short (decoded table.now) number length) (with_field short.bits number) short.bits }
{
    if field_write::is_short(number, length, table) {
        return short.with(number);
    }
    short
}

// 13 where the end note says another length than the message has, then 14; then writes the message. Every content may be written.
fn write_ended(
    values: &[u8],
    notes: &[u8],
    weighed: &Weighed,
    table: &[u16],
    out: &mut [u8],
) -> Result<usize, Refusal>
    requires asked { Asked (decoded table.now) values.now notes.now weighed.now.fields.bits }
    requires sums { Sums (decoded table.now) (listed_in plain_form notes.now) weighed.now.fields.bits weighed.now.short.bits weighed.now.size }
    ensures answers { result ≡ answered (Ok weighed.now.end) (message_in (decoded table.now) values.now notes.now) out.old }
    ensures writes { out.new ≡ laid_out (Ok weighed.now.end) (message_in (decoded table.now) values.now notes.now) out.old }
{
    let count = message_notes::count_in(notes);
    let length = 4 + 8 * count + weighed.size;
    let Ended { at, said } = weighed.end;
    if said != length {
        return Err(Cause::EndDiffers.at(0, at));
    }
    if out.len() < length {
        return Err(Cause::OutputTooShort.at(0, at));
    }
    write_message(values, notes, weighed.fields, table, out);
    Ok(length)
}

// Writes MTI, bitmaps and fields, each behind the last.
fn write_message(values: &[u8], notes: &[u8], fields: FieldSet, table: &[u16], out: &mut [u8])
    requires asked { Asked (decoded table.now) values.now notes.now fields.bits }
    requires room { length (message_in (decoded table.now) values.now notes.now) ≤ length out.old }
    ensures { out.new ≡ lay (message_in (decoded table.now) values.now notes.now) out.old }
{
    let count = message_notes::count_in(notes);
    let maps = Bitmaps::of(count, fields).to_bytes();
    let size = 8 * count;
    let start = 4 + size;
    octets::put(message_notes::mti_in(notes), out);
    octets::put(&maps[0..size], &mut out[4..]);
    write_body(values, notes, table, &mut out[start..]);
}

// Writes the fields one behind the other, each into the rest of the output. Their notes and contents have passed and are not judged again.
// By place, as `find` of message_lookup.
fn write_body(values: &[u8], notes: &[u8], table: &[u16], out: &mut [u8])
    requires head { head_size ≤ length notes.now }
    requires clean { listed_in plain_form notes.now ≡ entries_by (decoded table.now) values.now Rule.Clean notes.now }
    requires room { length (body_of (decoded table.now) values.now (listed_in plain_form notes.now)) ≤ length out.old }
    ensures { out.new ≡ lay (body_of (decoded table.now) values.now (listed_in plain_form notes.now)) out.old }
{
    let mut written = 0;
    let mut at = message_notes::HEAD_SIZE;
    while let Note::Field {
        number,
        offset,
        length,
    } = message_notes::read_note(&notes[at..])
    {
        let end = offset + length;
        let size = field_write::written_size(number, length, table);
        field_write::put_field(number, &values[offset..end], table, &mut out[written..]);
        written += size;
        at += message_notes::FIELD_NOTE_SIZE;
    }
}
