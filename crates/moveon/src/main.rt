//! Moves clocks on by a number of seconds, a line of the input each.

#![tactic(auto)]

mod answer;
mod digits;
mod fault;
mod field;
mod line;
mod report;

use answer::answer_to;
use outcome::exit_code;
use report::Report;
use std::io::{BufRead, BufReader, BufWriter, Write};
use std::process::ExitCode;
use std::{env, io};
use thiserror::Error;

const HELP: &str = "moveon: moves a clock on by a number of seconds.

Each line of standard input has the bytes of registers 9 to 15 as pairs of hex digits
(seconds, minutes, hours, day, date, month, year) and a decimal count of seconds, with
spaces or tabs between. moveon prints the time before, the count and the time after; of a
line that makes no date or cannot be read it prints why, and where, and goes on.

    $ echo '59 59 23 05 28 02 03 1' | moveon
    28 Feb 03 23:59:59, day 5, + 1 s -> 01 Mar 03 00:00:00, day 6
";

/// Why the program ends with status 1.
#[derive(Debug, Drop, Error)]
enum Failure {
    #[error("unknown argument {0}; try --help")]
    Argument(String),
    #[error(transparent)]
    Io(#[from] io::Error),
}

/// Answers each line of the input.
fn answer_all(rt: &HostRuntime) -> io::Result<()> {
    let mut input = BufReader::new(rt.alloc(), rt.stdin())?;
    let mut output = BufWriter::new(rt.alloc(), rt.stdout())?;
    let mut line = Vec::new(rt.alloc());
    for number in 1..u64::MAX {
        line.clear();
        // What is answered goes out before the program waits for more input.
        if !input.buffer().contains(&b'\n') {
            output.flush()?;
        }
        if input.read_until(b'\n', &mut line)? == 0 {
            break;
        }
        if let Some(answer) = answer_to(&line).transpose() {
            let report = Report { number, answer };
            writeln!(output, "{report}")?;
        }
    }
    output.flush()
}

fn run(rt: &HostRuntime) -> Result<(), Failure> {
    match env::args(rt)?.nth(1) {
        None => answer_all(rt)?,
        Some(argument) if matches!(argument.as_str(), "--help" | "-h") => rt.print(HELP)?,
        Some(argument) => return Err(Failure::Argument(argument)),
    }
    Ok(())
}

fn main(rt: HostRuntime) -> ExitCode {
    exit_code(&rt, "moveon", run(&rt))
}
