// Puts questions to the library's routines. Each line of the input is a question, and each line printed is the question as it was
// understood, an arrow and the answer: `pan 34313131313131313131313131313131 -> passed`. An empty line and one that begins with `#` are
// printed as they are.
//
// A question is its name, then numbers and the like, then bytes, with one space between words. Bytes are hexadecimal, `-` where there are
// none; parts are joined by `+`, and `3031*9` is a part nine times over. A ROOM is how many bytes are lent for writing: they are filled
// with 0xEE before the call, and all of them are printed behind the answer.
//
//     bcd-encode ROOM BYTES           bcd-decode ROOM DIGITS BYTES            bcd-bytes DIGITS
//     ebcdic-encode ROOM BYTES        ebcdic-decode ROOM BYTES
//     length-encode ROOM ENCODING DIGITS LENGTH       length-decode ENCODING DIGITS BYTES       (ascii, bcd, ebcdic)
//     class CLASS BYTES               (n, a, an, ans, ns, z, x+n, b)
//     field NUMBER BYTES              pan BYTES       date BYTES       time BYTES       currency BYTES
//     read ROOM BYTES                 look-up NUMBER VALUES NOTES             required VALUES NOTES
//     write-exact ROOM VALUES NOTES   write-clean ROOM VALUES NOTES
//     pack ROOM BYTES                 unpack ROOM BYTES
//
// Any other line is no question, and so is one with a number that no 64 bits hold, with more bytes or room than 2,048, or longer than
// 8,191 bytes. Reading goes on behind it.
#![tactic(auto)]

mod answer;
mod input;
mod output;
mod question;
mod room;
mod spelling;
mod words;

use input::Input;
use output::Output;
use question::Question;
use spelling::MOST_BYTES;
use std::fmt::Write;
use std::io;
use words::{NoQuestion, Spaces, Understood, Words};

// The most bytes of a line, its end included.
const LINE_ROOM: usize = 8192;

// It cannot fail: memory is fixed, a read that fails is taken for the end of the input, and what cannot be printed is dropped.
fn main(rt: HostRuntime) {
    let mut input = Input::new(rt.stdin());
    let mut output = Output::new(io::writer(&rt));
    let mut line = [0; LINE_ROOM];
    let mut spaces: Spaces = [[0; MOST_BYTES]; 2];
    for _ in 0..u64::MAX {
        match input.read_line(&mut line) {
            [] => return,
            [text @ .., b'\n'] => reply_to(text, &mut spaces, &mut output),
            text if text.len() < LINE_ROOM => reply_to(text, &mut spaces, &mut output),
            // The answer comes first, since such a line need not end.
            _ => {
                say_no_question(b"too long", &mut output);
                input.skip_line();
            }
        }
    }
}

// Prints the line that is printed for a line.
fn reply_to<W: io::Write>(line: &[u8], spaces: &mut Spaces, output: &mut Output<W>) {
    if line.is_empty() || line.starts_with(b"#") {
        output.print(line);
        output.end_line();
    } else if let Ok((understood, question)) = understand(line, spaces) {
        // Neither fails, since the output drops what cannot be written.
        let _ = write!(output, "{understood} -> ");
        let _ = question.tell(output);
        output.end_line();
    } else {
        say_no_question(line, output);
    }
}

fn say_no_question<W: io::Write>(line: &[u8], output: &mut Output<W>) {
    output.print(b"not a question: ");
    output.print(line);
    output.end_line();
}

// The question, and its words as they were understood.
fn understand<'a>(
    line: &'a [u8],
    spaces: &'a mut Spaces,
) -> Result<(Understood<'a>, Question<'a>), NoQuestion> {
    let mut words = Words::new(line, spaces)?;
    let question = Question::from_words(&mut words)?;
    Ok((words.finish()?, question))
}
