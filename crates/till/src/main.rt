// The till program: reads a message from standard input and prints what stands in it, or why it is refused. 01, "The till program
// reads standard input (at most 60,000 bytes)".
#![tactic(auto)]

use std::io;

fn main(rt: HostRuntime) {
    // The status is 0 whatever fails (docs/DECISIONS.md, T5).
    let _ = till_report::try_print_report(&mut rt.reader(), &mut io::writer(&rt));
}
