// The packed link: a message carried over from one script into the other. 02, P3.
#![tactic(auto)]

ghost use Rattle.std.specs.Prelude.{◌≡◌, true, ℕ, ◌≤◌, ◌+◌, ◌*◌, length, drop};
ghost use Rattle.octets.specs.Lists.{lay};
ghost use Rattle.field_table.specs.House.{house};
ghost use Rattle.field_table.specs.Codes.{decoded};
ghost use Rattle.bitmap.specs.Bitmaps.{fields_of};
ghost use Rattle.bitmap_read.specs.Found.{maps_of};
ghost use Rattle.packed_field.specs.Scripts.{size_of, other};
ghost use Rattle.packed_field.specs.Items.{is_content, judge_item, content_size};
ghost use Rattle.packed_link.specs.Link.{told_link, link_head, content_carried, item_carried, fields_judged, fields_carried, body_judged, body_carried, link_answer, link_output};

use field_table::Class;
use packed_field::{Item, Script};
use refusal::{Cause, Refusal, check_room};

// How many bytes of the input are used, and how many the other script takes.
#[derive(Clone, Copy)]
pub struct Translated {
    pub used: usize,
    pub written: usize,
}

// A link: the script that it reads, and the table that it goes by.
#[derive(Clone, Copy)]
struct Link<'a> {
    script: Script,
    table: &'a [u16],
}

// Takes the plain message at the front of the input and writes its packed form to the front of out. A refusal leaves out as it was.
pub fn pack(plain: &[u8], out: &mut [u8]) -> Result<Translated, Refusal>
    ensures answers { result ≡ link_answer Script.Plain house 3 plain.now out.old }
    ensures tells { told_link result ≡ told_link (link_answer Script.Plain house 3 plain.now out.old) }
    ensures writes { out.new ≡ link_output Script.Plain house 3 plain.now out.old }
{
    let table = field_table::house_table();
    let link = Link {
        script: Script::Plain,
        table: &table,
    };
    link.translate(plain, out)
}

// Takes the packed message at the front of the input and writes its plain form to the front of out. A refusal leaves out as it was.
pub fn unpack(packed: &[u8], out: &mut [u8]) -> Result<Translated, Refusal>
    ensures answers { result ≡ link_answer Script.Packed house 3 packed.now out.old }
    ensures tells { told_link result ≡ told_link (link_answer Script.Packed house 3 packed.now out.old) }
    ensures writes { out.new ≡ link_output Script.Packed house 3 packed.now out.old }
{
    let table = field_table::house_table();
    let link = Link {
        script: Script::Packed,
        table: &table,
    };
    link.translate(packed, out)
}

impl Link<'_> {
    // Carries a message in that script over into the other, by the table lent: lists the fields that its bitmaps name, judges them, then writes.
    fn translate(&self, input: &[u8], out: &mut [u8]) -> Result<Translated, Refusal>
        ensures answers { result ≡ link_answer self.now.script (decoded self.now.table.now) 3 input.now out.old }
        ensures writes { out.new ≡ link_output self.now.script (decoded self.now.table.now) 3 input.now out.old }
    {
        let bitmaps = self.read_head(input)?;
        let maps = 8 * bitmaps;
        let start = self.script.size_of(4);
        let end = start + maps;
        let list = bitmap::list_fields(&input[start..end]);
        let fields = list.as_slice();
        let before = self.script.other().size_of(4) + maps;
        let judged = self.judge_fields(input, end, before, fields)?;
        check_room(judged.written, out)?;
        self.write_message(input, bitmaps, fields, out);
        Ok(judged)
    }

    // Reads the MTI and finds how many bitmaps there are.
    // As message_reader's, which knows no script and stands below the link.
    fn read_head(&self, input: &[u8]) -> Result<usize, Refusal>
        ensures { result ≡ link_head self.now.script 3 input.now }
    {
        let start = self.script.size_of(4);
        if input.len() < start + 8 {
            return Err(Cause::MessageTooShort.into());
        }
        let good = packed_field::lead_parts(&input[..start], self.script);
        if good < start {
            return Err(self.script.fault(Cause::MtiNotDigits).at(0, good));
        }
        bitmap_read::read_bitmaps(input, start)
    }

    // Judges the fields one after the other, the first at start, each from the rest of the message, and counts what they take in the other
    // script, behind what stands before them. Nothing is written.
    fn judge_fields(
        &self,
        input: &[u8],
        start: usize,
        before: usize,
        fields: &[u8],
    ) -> Result<Translated, Refusal>
        requires start_in_bounds { start ≤ length input.now }
        requires before_bound { before ≤ 28 }
        requires few { length fields.now ≤ 192 }
        ensures { result ≡ fields_judged self.now.script (decoded self.now.table.now) start before fields.now (drop start input.now) }
    {
        let mut at = start;
        let mut written = before;
        for field in fields {
            let field = usize::from(*field);
            match packed_field::judge_item(&input[at..], field, self.script, self.table) {
                Err(cause) => return Err(cause.at(field, at)),
                Ok(item) => {
                    at += item.start + item.size;
                    written += item.carried;
                }
            }
        }
        Ok(Translated { used: at, written })
    }

    // Writes MTI, bitmaps and fields, each behind the last. All of them are known to be good, and to fit.
    fn write_message(&self, input: &[u8], bitmaps: usize, fields: &[u8], out: &mut [u8])
        requires headed { link_head self.now.script 3 input.now ≡ Ok bitmaps }
        requires listed { fields.now ≡ fields_of (maps_of (size_of self.now.script 4) input.now bitmaps) bitmaps }
        requires judged { (d : Translated) × ((body_judged self.now.script (decoded self.now.table.now) input.now bitmaps ≡ Ok d) × (d.written ≤ length out.old)) }
        ensures { out.new ≡ lay (body_carried self.now.script (decoded self.now.table.now) input.now bitmaps) out.old }
    {
        let start = self.script.size_of(4);
        let maps = 8 * bitmaps;
        let end = start + maps;
        packed_field::carry(&input[..start], self.script, 4, out);
        let first = self.script.other().size_of(4);
        octets::put(&input[start..end], &mut out[first..]);
        let behind = first + maps;
        self.write_fields(input, end, fields, &mut out[behind..]);
    }

    // Writes the fields one behind the other, each into the rest of the output. They are known to be good: none is refused here, though the BCD
    // routines test what they are handed.
    fn write_fields(&self, input: &[u8], start: usize, fields: &[u8], out: &mut [u8])
        requires start_in_bounds { start ≤ length input.now }
        requires judged { (x : ℕ) × ((d : Translated) × (fields_judged self.now.script (decoded self.now.table.now) start x fields.now (drop start input.now) ≡ Ok d)) }
        requires room { length (fields_carried self.now.script (decoded self.now.table.now) fields.now (drop start input.now)) ≤ length out.old }
        ensures { out.new ≡ lay (fields_carried self.now.script (decoded self.now.table.now) fields.now (drop start input.now)) out.old }
    {
        let mut at = start;
        let mut written: usize = 0;
        for field in fields {
            let field = usize::from(*field);
            let Ok(item) = packed_field::place_item(&input[at..], field, self.script, self.table)
            else {
                return;
            };
            self.carry_item(&input[at..], field, item, &mut out[written..]);
            at += item.start + item.size;
            written += item.carried;
        }
    }

    // Writes a good field in the other script.
    fn carry_item(&self, rest: &[u8], number: usize, item: Item, out: &mut [u8])
        requires judged { judge_item self.now.script (decoded self.now.table.now) number rest.now ≡ Ok item }
        requires room { item.carried ≤ length out.old }
        ensures { out.new ≡ lay (item_carried self.now.script (decoded self.now.table.now) number item.start item.count item.size rest.now) out.old }
    {
        let width = field_table::width_in(self.table, number);
        packed_field::carry(&rest[..item.start], self.script, width, out);
        let first = self.script.other().size_of(width);
        let class = field_table::class_in(self.table, number);
        let end = item.start + item.size;
        carry_content(
            &rest[item.start..end],
            class,
            item.count,
            self.script,
            &mut out[first..],
        );
    }
}

// Writes a good content in the other script.
fn carry_content(content: &[u8], class: Class, count: usize, script: Script, out: &mut [u8])
    requires good { is_content script class count content.now ≡ true }
    requires whole { length content.now ≡ content_size script class count }
    requires room { content_size (other script) class count ≤ length out.old }
    ensures { out.new ≡ lay (content_carried script class count content.now) out.old }
{
    if packed_field::is_numeric(class) {
        packed_field::carry(content, script, count, out);
        return;
    }
    octets::put(content, out);
}
