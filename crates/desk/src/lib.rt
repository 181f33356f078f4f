// The desk: what programs in C, Rust or another language link. The reader, the writers, lookup, the packed link, checks and conversions
// under plain names, their answers told in the terms of desk_terms.
#![tactic(auto)]

ghost use Rattle.std.specs.Prelude.{◌≡◌, map};
ghost use Rattle.refusal.specs.Refusals.{converted, converted_into, told, checked, told_checked};
ghost use Rattle.encoding_bcd.specs.Bcd.{packed, unpacked, encode_fault as bcd_encode_fault, decode_fault as bcd_decode_fault};
ghost use Rattle.encoding_ebcdic.specs.Ebcdic.{ascii_of, ebcdic_of, encode_fault as ebcdic_encode_fault, decode_fault as ebcdic_decode_fault};
ghost use Rattle.field_table.specs.House.{house};
ghost use Rattle.message_notes.specs.Dialect.{dialect};
ghost use Rattle.message_reader.specs.Reader.{told_read, read_answer, notes_after};
ghost use Rattle.message_lookup.specs.Lookup.{told_found, looked_up};
ghost use Rattle.message_write.specs.Written.{exact_answer, exact_output, clean_answer, clean_output, clean_padded};
ghost use Rattle.packed_field.specs.declared.Script.{Script};
ghost use Rattle.packed_link.specs.Link.{told_link, link_answer, link_output};
ghost use Rattle.validation_pan.specs.Pan.{pan_fault};
ghost use Rattle.validation_dates.specs.Dates.{date_fault, time_fault};
ghost use Rattle.validation_field.specs.Checks.{field_fault};
ghost use Rattle.validation_required.specs.Required.{required_in};
ghost use Rattle.desk_terms.specs.Terms.{reading, written, cleaned, found, translation, measurement, judgement, encoded_by, encoded_into, decoded_by};

use desk_terms::{Cleaned, Found, Judgement, Measurement, Reading, Translation, Written};

#[unsafe(no_mangle)]
pub extern "C" fn obol_read(message: &[u8], notes: &mut [u8]) -> Reading
    ensures answers { result ≡ reading (told_read (read_answer (dialect house) message.now notes.old)) }
    ensures writes { notes.new ≡ notes_after (dialect house) message.now notes.old }
{
    message_reader::read(message, notes).into()
}

#[unsafe(no_mangle)]
pub extern "C" fn obol_write_exact(values: &[u8], notes: &[u8], out: &mut [u8]) -> Written
    ensures answers { result ≡ written (told (exact_answer (dialect house) values.now notes.now out.old)) }
    ensures writes { out.new ≡ exact_output (dialect house) values.now notes.now out.old }
{
    message_write::write_exact(values, notes, out).into()
}

#[unsafe(no_mangle)]
pub extern "C" fn obol_write_clean(values: &[u8], notes: &[u8], out: &mut [u8]) -> Cleaned
    ensures answers { result ≡ cleaned (told (clean_answer (dialect house) values.now notes.now out.old)) (clean_padded (dialect house) values.now notes.now out.old) }
    ensures writes { out.new ≡ clean_output (dialect house) values.now notes.now out.old }
{
    message_write::write_clean(values, notes, out).into()
}

#[unsafe(no_mangle)]
pub extern "C" fn obol_look_up(values: &[u8], notes: &[u8], number: usize) -> Found
    ensures { result ≡ found (told_found (looked_up (dialect house) values.now notes.now number)) }
{
    message_lookup::look_up(values, notes, number).into()
}

#[unsafe(no_mangle)]
pub extern "C" fn obol_pack(plain: &[u8], out: &mut [u8]) -> Translation
    ensures answers { result ≡ translation (told_link (link_answer Script.Plain house 3 plain.now out.old)) }
    ensures writes { out.new ≡ link_output Script.Plain house 3 plain.now out.old }
{
    packed_link::pack(plain, out).into()
}

#[unsafe(no_mangle)]
pub extern "C" fn obol_unpack(packed: &[u8], out: &mut [u8]) -> Translation
    ensures answers { result ≡ translation (told_link (link_answer Script.Packed house 3 packed.now out.old)) }
    ensures writes { out.new ≡ link_output Script.Packed house 3 packed.now out.old }
{
    packed_link::unpack(packed, out).into()
}

#[unsafe(no_mangle)]
pub extern "C" fn obol_check_field(number: usize, content: &[u8]) -> Judgement
    ensures { result ≡ judgement (told_checked (checked (field_fault house number content.now) number)) }
{
    validation_field::check_field(number, content).into()
}

#[unsafe(no_mangle)]
pub extern "C" fn obol_check_required(values: &[u8], notes: &[u8]) -> Judgement
    ensures { result ≡ judgement (told_checked (required_in (dialect house) values.now notes.now)) }
{
    validation_required::check_required(values, notes).into()
}

#[unsafe(no_mangle)]
pub extern "C" fn obol_check_pan(content: &[u8]) -> Judgement
    ensures { result ≡ judgement (told_checked (checked (pan_fault content.now) 0)) }
{
    validation_pan::check_pan(content).into()
}

#[unsafe(no_mangle)]
pub extern "C" fn obol_check_date(content: &[u8]) -> Judgement
    ensures { result ≡ judgement (told_checked (checked (date_fault content.now) 0)) }
{
    validation_dates::check_date(content).into()
}

#[unsafe(no_mangle)]
pub extern "C" fn obol_check_time(content: &[u8]) -> Judgement
    ensures { result ≡ judgement (told_checked (checked (time_fault content.now) 0)) }
{
    validation_dates::check_time(content).into()
}

#[unsafe(no_mangle)]
pub extern "C" fn obol_bcd_encode(source: &[u8], out: &mut [u8]) -> Written
    ensures answers { result ≡ written (told (converted (bcd_encode_fault source.now) (packed source.now) out.old)) }
    ensures writes { out.new ≡ converted_into (bcd_encode_fault source.now) (packed source.now) out.old }
{
    encoding_bcd::encode(source, out).into()
}

#[unsafe(no_mangle)]
pub extern "C" fn obol_bcd_decode(source: &[u8], digits: usize, out: &mut [u8]) -> Written
    ensures answers { result ≡ written (told (converted (bcd_decode_fault digits source.now) (unpacked digits source.now) out.old)) }
    ensures writes { out.new ≡ converted_into (bcd_decode_fault digits source.now) (unpacked digits source.now) out.old }
{
    encoding_bcd::decode(source, digits, out).into()
}

#[unsafe(no_mangle)]
pub extern "C" fn obol_ebcdic_encode(source: &[u8], out: &mut [u8]) -> Written
    ensures answers { result ≡ written (told (converted (ebcdic_encode_fault source.now) (map ebcdic_of source.now) out.old)) }
    ensures writes { out.new ≡ converted_into (ebcdic_encode_fault source.now) (map ebcdic_of source.now) out.old }
{
    encoding_ebcdic::encode(source, out).into()
}

#[unsafe(no_mangle)]
pub extern "C" fn obol_ebcdic_decode(source: &[u8], out: &mut [u8]) -> Written
    ensures answers { result ≡ written (told (converted (ebcdic_decode_fault source.now) (map ascii_of source.now) out.old)) }
    ensures writes { out.new ≡ converted_into (ebcdic_decode_fault source.now) (map ascii_of source.now) out.old }
{
    encoding_ebcdic::decode(source, out).into()
}

#[unsafe(no_mangle)]
pub extern "C" fn obol_length_encode(
    length: usize,
    digits: usize,
    encoding: u64,
    out: &mut [u8],
) -> Written
    ensures answers { result ≡ written (told (encoded_by encoding digits length out.old)) }
    ensures writes { out.new ≡ encoded_into encoding digits length out.old }
{
    desk_terms::encode_length(length, digits, encoding, out).into()
}

#[unsafe(no_mangle)]
pub extern "C" fn obol_length_decode(source: &[u8], digits: usize, encoding: u64) -> Measurement
    ensures { result ≡ measurement (told (decoded_by encoding digits source.now)) }
{
    desk_terms::decode_length(source, digits, encoding).into()
}
