// The bytes of notes. 01, "Notes". How the bytes of a note are laid out is said here and nowhere above.
#![tactic(auto)]

ghost use Rattle.std.specs.Prelude.{◌≡◌, cond, [], ◌+◌, leb, length};
ghost use Rattle.octets.specs.Lists.{placed};
ghost use Rattle.message_language.specs.Language.{entry};
ghost use Rattle.message_notes.specs.Dialect.{plain_form, head_size};
ghost use Rattle.message_notes.specs.Notes.{head_note, field_note, end_note, is_head, mti_in, mti_place, count_in, field_note_at, end_note_at, note_at};

// What stands where the note of a field or of the end should: its numbers, or that it is missing, cut or of another kind.
// Three cases and no `Option` of two: the judge of a note tells all three apart, and would take an `Option` of an enum apart in two steps.
// The three numbers stand in the case itself, as in message_walk's `Judged`: a struct would be built for each note and taken apart at once.
#[derive(Clone, Copy)]
pub enum Note {
    Field {
        number: usize,
        offset: usize,
        length: usize,
    },
    End(usize),
    Malformed,
}

// Constants and no enum: a pattern compares the note's own byte, where an enum would first be made of it, and some bytes are no kind.
pub const HEAD_KIND: u8 = 1;

pub const FIELD_KIND: u8 = 2;

pub const END_KIND: u8 = 4;

pub const HEAD_SIZE: usize = 6;

pub const FIELD_NOTE_SIZE: usize = 8;

pub const END_SIZE: usize = 5;

// The notes of any message fit in this: a head, a note for each number of three bitmaps but 1 and 65, and an end.
pub const NOTES_ROOM: usize = HEAD_SIZE + FIELD_NOTE_SIZE * (64 * 3 - 2) + END_SIZE;

// Whether the notes begin with a whole head; its count and MTI are the caller's to judge.
#[tactic(auto, unfolding(crate::specs::Notes::is_head))]
pub fn is_head(notes: &[u8]) -> bool
    ensures { result ≡ is_head notes.now }
{
    HEAD_SIZE <= notes.len() && notes[0] == HEAD_KIND
}

// The MTI in the head, as a part of the notes; the empty part at their front where they are too short for a head.
// An empty part and no `Option`: the promise says so.
#[tactic(auto, unfolding(crate::specs::Notes::mti_place))]
pub fn mti_in<'a>(notes: &'a [u8]) -> &'a [u8]
    ensures bytes { result.now ≡ cond (leb head_size (length notes.now)) (mti_in notes.now) [] }
    ensures place { (result.ref_ptr.0 ≡ notes.entry.ref_ptr.0) × (result.ref_ptr.1 ≡ notes.entry.ref_ptr.1 + mti_place notes.now) }
{
    if HEAD_SIZE <= notes.len() {
        &notes[1..5]
    } else {
        &notes[..0]
    }
}

// The count of bitmaps in the head; 0 where the notes are too short for a head.
// 0 and no `Option`: the promise says 0.
pub fn count_in(notes: &[u8]) -> usize
    ensures { result ≡ count_in notes.now }
{
    usize::from(notes.get(5).copied().unwrap_or(0))
}

// Writes the head note to the front of out; of a count, its last byte. Where it does not fit, out is left as it is.
pub fn put_head(mti: &[u8], count: usize, out: &mut [u8])
    ensures { out.new ≡ placed (head_note mti.now count) out.old }
{
    if out.len().saturating_sub(mti.len()) < 2 {
        return;
    }
    out[0] = HEAD_KIND;
    octets::put(mti, &mut out[1..]);
    octets::put_big_endian(count, 1, &mut out[1 + mti.len()..]);
}

// Writes the note of a field to the front of out; of each number, as many of its last bytes as the note has for it. Every number
// of a message fits (message_reader/specs/Demand3.antt). Where the note does not fit, out is left as it is.
pub fn put_field(number: usize, offset: usize, length: usize, out: &mut [u8])
    ensures { out.new ≡ placed (field_note plain_form (entry number offset length)) out.old }
{
    if out.len() < FIELD_NOTE_SIZE {
        return;
    }
    out[0] = FIELD_KIND;
    octets::put_big_endian(number, 1, &mut out[1..]);
    octets::put_big_endian(offset, 4, &mut out[2..]);
    octets::put_big_endian(length, 2, &mut out[6..]);
}

// Writes the end note to the front of out; of a length, its last four bytes. Where it does not fit, out is left as it is.
pub fn put_end(used: usize, out: &mut [u8])
    ensures { out.new ≡ placed (end_note used) out.old }
{
    if out.len() < END_SIZE {
        return;
    }
    out[0] = END_KIND;
    octets::put_big_endian(used, 4, &mut out[1..]);
}

// Reads the note of a field or of the end at the front of rest.
#[tactic(auto, unfolding(crate::specs::Notes::note_at, crate::specs::Notes::field_note_at))]
pub fn read_note(rest: &[u8]) -> Note
    ensures { result ≡ note_at plain_form rest.now }
{
    match rest {
        [FIELD_KIND, ..] => read_field_note(rest),
        [END_KIND, ..] => read_end_note(rest),
        _ => Note::Malformed,
    }
}

#[tactic(auto, unfolding(crate::specs::Notes::field_note_at), using(octets::proofs::Numbers::part_big_endian))]
fn read_field_note(rest: &[u8]) -> Note
    ensures { result ≡ field_note_at plain_form rest.now }
{
    if rest.len() < FIELD_NOTE_SIZE {
        return Note::Malformed;
    }
    let number = octets::big_endian_of(&rest[1..2]);
    let offset = octets::big_endian_of(&rest[2..6]);
    let length = octets::big_endian_of(&rest[6..8]);
    Note::Field {
        number,
        offset,
        length,
    }
}

#[tactic(auto, unfolding(crate::specs::Notes::end_note_at), using(octets::proofs::Numbers::part_big_endian))]
fn read_end_note(rest: &[u8]) -> Note
    ensures { result ≡ end_note_at rest.now }
{
    if rest.len() < END_SIZE {
        return Note::Malformed;
    }
    Note::End(octets::big_endian_of(&rest[1..5]))
}
