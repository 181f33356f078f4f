// The walk over notes: judges them, wherever they come from. 01, "Writers walk the notes" and "Lookup walks".
#![tactic(auto)]

ghost use Rattle.std.specs.Prelude.{◌≡◌, ℕ, List, true, cond, ◌+◌, ◌≤◌, length, drop, leb};
ghost use Rattle.refusal.specs.Numbers.{outside_values};
ghost use Rattle.refusal.specs.Refusals.{refusal, Test, good, bad};
ghost use Rattle.field_table.specs.House.{house};
ghost use Rattle.field_table.specs.Codes.{decoded};
ghost use Rattle.message_language.specs.Language.{Entry, entry};
ghost use Rattle.message_contents.specs.Contents.{number_allowed};
ghost use Rattle.message_notes.specs.Dialect.{plain_form, head_size, dialect};
ghost use Rattle.message_notes.specs.Notes.{count_in};
ghost use Rattle.message_walk.specs.Walk.{head_number, judged_field, judged, ending, walked, entries_in, fields_on, fields_in, gathered_end, gathered_fields};
ghost use Rattle.message_walk.specs.Faults.{any, asked, within};

use bitmap::FieldSet;
use message_notes::Note;
use refusal::{Cause, Refusal};

// What is asked of a content besides its place in the values.
pub trait Ask {
    ghost finds: { Self → ℕ → List ℕ → Test };

    // What is wrong with the content of field number.
    fn fault(&self, number: usize, content: &[u8]) -> Result<(), Cause>
        ensures { result ≡ finds self.now number content.now };
}

// Nothing is asked, as by lookup.
struct Nothing;

impl Ask for Nothing {
    ghost finds = { λ s. any };

    fn fault(&self, _number: usize, _content: &[u8]) -> Result<(), Cause> {
        Ok(())
    }
}

// What the exact writer asks, or the cleaning writer: 12 or 8.
// An enum and no two types: the definitions of what a writer answers take it (`asked`).
#[derive(Clone, Copy)]
pub enum Rule {
    Exact,
    Clean,
}

// A rule, and the table that it goes by.
#[derive(Clone, Copy)]
pub struct ByRule<'a> {
    pub rule: Rule,
    pub table: &'a [u16],
}

impl Ask for ByRule<'_> {
    ghost finds = { λ s. asked (decoded s.table.now) s.rule };

    #[tactic(auto, unfolding(crate::specs::Faults::asked))]
    fn fault(&self, number: usize, content: &[u8]) -> Result<(), Cause> {
        match self.rule {
            Rule::Exact => field_write::exact_fault(number, content, self.table),
            Rule::Clean => field_write::clean_fault(number, content, self.table),
        }
    }
}

// What a note is found to be that is not refused: a field's, with the place of its content in the values; or the end.
#[derive(Clone, Copy)]
pub enum Judged {
    Passed {
        number: usize,
        offset: usize,
        length: usize,
    },
    End(usize),
}

// Why a note is refused, and its field. The walk adds the place.
#[derive(Clone, Copy)]
pub struct Flaw {
    pub cause: Cause,
    pub field: usize,
}

// Where a walk has come to the end note, and the length that this says.
#[derive(Clone, Copy)]
pub struct Ended {
    pub at: usize,
    pub said: usize,
}

// What a walk gathers that comes to the end note: this, and the set of the fields that the notes name.
#[derive(Clone, Copy)]
pub struct Gathered {
    pub end: Ended,
    pub fields: FieldSet,
}

impl Flaw {
    // The refusal of the note at a place.
    pub fn at(self, position: usize) -> Refusal
        ensures { result ≡ refusal self.cause self.field position }
    {
        self.cause.at(self.field, position)
    }
}

// Walks the notes from the head to the end note, as lookup does: nothing is asked of a content but that it lies within the values.
// Values and notes are lent apart, here and above: in a struct of the two each clause would say `n.now.values.now`.
pub fn walk(values: &[u8], notes: &[u8]) -> Result<Gathered, Refusal>
    ensures end { gathered_end result ≡ walked (dialect house) (within values.now any) notes.now }
    ensures fields { gathered_fields result ≡ fields_in (dialect house) (within values.now any) notes.now }
{
    head_fault(notes)?;
    walk_fields(values, notes)
}

// What is wrong with the head: 9, then 3.
pub fn head_fault(notes: &[u8]) -> Result<(), Cause>
    ensures { result ≡ head_number 3 notes.now }
{
    let count = message_notes::count_in(notes);
    if !message_notes::is_head(notes) || count < 1 || 3 < count {
        return Err(Cause::NoteMalformed);
    }
    if !octets::all_between(message_notes::mti_in(notes), b'0', b'9') {
        return Err(Cause::MtiNotDigits);
    }
    Ok(())
}

// Walks the notes behind a good head. By place, since a note that is refused is answered with it.
fn walk_fields(values: &[u8], notes: &[u8]) -> Result<Gathered, Refusal>
    requires { head_size ≤ length notes.now }
    ensures end { gathered_end result ≡ ending plain_form (within values.now any) (count_in notes.now) (length notes.now) 0 head_size (drop head_size notes.now) }
    ensures fields { gathered_fields result ≡ fields_on (gathered_end result) (entries_in (dialect house) (within values.now any) notes.now) }
{
    let count = message_notes::count_in(notes);
    let mut fields = FieldSet::none();
    let mut last = 0;
    let mut at = message_notes::HEAD_SIZE;
    loop {
        match judge(values, &notes[at..], count, last, &Nothing) {
            Err(flaw) => return Err(flaw.at(at)),
            Ok(Judged::End(said)) => {
                let end = Ended { at, said };
                return Ok(Gathered { end, fields });
            }
            Ok(Judged::Passed { number, .. }) => {
                fields = fields.with(number);
                last = number;
                at += message_notes::FIELD_NOTE_SIZE;
            }
        }
    }
}

// Judges the note at the front of rest, where last is the number of the field before it.
pub fn judge<A: Ask>(
    values: &[u8],
    rest: &[u8],
    count: usize,
    last: usize,
    ask: &A,
) -> Result<Judged, Flaw>
    ensures { result ≡ judged plain_form (within values.now (A.finds ask.now)) count last rest.now }
{
    match message_notes::read_note(rest) {
        Note::Malformed => Err(Flaw {
            cause: Cause::NoteMalformed,
            field: 0,
        }),
        Note::End(said) => Ok(Judged::End(said)),
        Note::Field {
            number,
            offset,
            length,
        } => {
            let fault = fault_of(values, number, offset, length, ask);
            judge_field(count, last, number, offset, length, fault)
        }
    }
}

// Judges the note of a field: its number comes before the fault that was found with the field.
#[tactic(auto, unfolding(crate::specs::Walk::judged_field))]
fn judge_field(
    count: usize,
    last: usize,
    number: usize,
    offset: usize,
    length: usize,
    fault: Result<(), Cause>,
) -> Result<Judged, Flaw>
    ensures { result ≡ judged_field true (λ (e : Entry). fault) count last number offset length }
{
    if !is_number_allowed(count, last, number) {
        return Err(Flaw {
            cause: Cause::NumberNotAllowed,
            field: number,
        });
    }
    match fault {
        Ok(()) => Ok(Judged::Passed {
            number,
            offset,
            length,
        }),
        Err(cause) => Err(Flaw {
            cause,
            field: number,
        }),
    }
}

// Whether number may follow last where there are count bitmaps.
fn is_number_allowed(count: usize, last: usize, number: usize) -> bool
    ensures { result ≡ number_allowed count last number }
{
    last < number && bitmap::is_field(number) && (number - 1) / 64 < count
}

// What is wrong with the field: 11, then what is asked of its content.
fn fault_of<A: Ask>(
    values: &[u8],
    number: usize,
    offset: usize,
    length: usize,
    ask: &A,
) -> Result<(), Cause>
    ensures { result ≡ within values.now (A.finds ask.now) (entry number offset length) }
{
    place_fault(values.len(), offset, length)?;
    let end = offset + length;
    ask.fault(number, &values[offset..end])
}

// 11 where length bytes at offset do not lie within size bytes; the sum may be more than a number holds.
fn place_fault(size: usize, offset: usize, length: usize) -> Result<(), Cause>
    ensures { result ≡ cond (leb (offset + length) size) good (bad outside_values) }
{
    if size < length || size - length < offset {
        return Err(Cause::OutsideValues);
    }
    Ok(())
}
