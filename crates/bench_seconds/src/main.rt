//! Shows what a wait counts under control bytes of one's choice.

#![tactic(auto)]

mod timing;
mod wait;

use outcome::exit_code;
use seconds::counts::Counts;
use std::alloc::AllocError;
use std::env::Args;
use std::process::ExitCode;
use std::{env, io};
use thiserror::Error;
use timing::time_waits;
use wait::{Waited, wait};

const HELP: &str = "bench_seconds: shows what a wait counts.

    bench_seconds UNITS CONTROL [CONTROL ..]

UNITS is a decimal number of units of 1/32,768 s, and each CONTROL a control byte in hex,
whose bit 5 is the sign (1 shortens) and bits 4 to 0 the magnitude of the calibration. For
each one it prints what the wait counts from a new cycle on: seconds, how many of them
were shortened and lengthened, and the units gone of the running second.

    bench_seconds --time

prints how long waits of three lengths take to compute.

    $ bench_seconds 125829120 00 3F
    control          seconds       shortened      lengthened  remainder
        00h             3840               0               0          0
        3Fh             3840              62               0      15872
";

/// Why the program ends with status 1.
#[derive(Debug, Drop, Error)]
enum Failure {
    #[error("the number of units is missing; try --help")]
    MissingUnits,
    #[error("a control byte is missing; try --help")]
    MissingControl,
    #[error("{0} is no number of units from 0 to {max}", max = u64::MAX)]
    NotUnits(String),
    #[error("{0} is no byte in hex digits")]
    NotControl(String),
    #[error("out of memory")]
    Memory(#[from(alloc)] AllocError),
    #[error(transparent)]
    Io(#[from] io::Error),
}

/// The control bytes among the arguments that are left.
fn controls_in(rt: &HostRuntime, args: Args) -> Result<Vec<u8>, Failure> {
    let mut controls = Vec::new(rt.alloc());
    for text in args {
        match u8::from_str_radix(text.as_str(), 16) {
            // `push` asks for room once; `try_collect` would ask again where it is refused.
            Ok(control) => controls.push(control)?,
            Err(_) => return Err(Failure::NotControl(text)),
        }
    }
    if controls.is_empty() {
        return Err(Failure::MissingControl);
    }
    Ok(controls)
}

/// Prints a line for each control byte.
fn show(rt: &HostRuntime, units: u64, controls: &[u8]) -> io::Result<()> {
    println!(rt;
        "control {:>16} {:>15} {:>15} {:>10}",
        "seconds", "shortened", "lengthened", "remainder"
    )?;
    for &control in controls {
        let Waited { counts, remainder } = wait(control, units);
        let Counts {
            seconds,
            shortened,
            lengthened,
        } = counts;
        println!(rt;
            "    {control:02X}h {seconds:>16} {shortened:>15} {lengthened:>15} {remainder:>10}"
        )?;
    }
    Ok(())
}

fn run(rt: &HostRuntime) -> Result<(), Failure> {
    let mut args = env::args(rt)?;
    let first = args.nth(1).ok_or(Failure::MissingUnits)?;
    match first.as_str() {
        "--help" | "-h" => rt.print(HELP)?,
        "--time" => time_waits(rt)?,
        text => {
            let Ok(units) = text.parse() else {
                return Err(Failure::NotUnits(first));
            };
            let controls = controls_in(rt, args)?;
            show(rt, units, controls.as_slice())?;
        }
    }
    Ok(())
}

fn main(rt: HostRuntime) -> ExitCode {
    exit_code(&rt, "bench_seconds", run(&rt))
}
