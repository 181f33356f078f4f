// Runs what the till program runs, on the stored inputs that its arguments name. Each prints its name and then the report's lines.
#![tactic(auto)]

use std::fs::File;
use std::{env, io};

fn main(rt: HostRuntime) -> io::Result<()> {
    for name in env::args(&rt)?.skip(1) {
        run(&rt, name.as_str())?;
    }
    Ok(())
}

// Runs the input of that name. One that cannot be opened is named on standard error.
fn run(rt: &HostRuntime, name: &str) -> io::Result<()> {
    match File::open(rt, name) {
        Ok(mut file) => {
            println!(rt; "{name}")?;
            // As in the till program, a read or a write that fails ends nothing.
            let _ = till_report::try_print_report(&mut file, &mut io::writer(rt));
            Ok(())
        }
        Err(why) => eprintln!(rt; "{name}: {why}"),
    }
}
