//! Stores the same bytes into both kinds of memory, and shows that both hold the same.

#![tactic(auto)]

mod arguments;
mod ends;
mod report;
mod stores;

use arguments::{PairFault, hex_number, stores_in};
use ends::store_in_both;
use memory::byte_memory::ByteMemory;
use memory::word_memory::WordMemory;
use outcome::exit_code;
use report::Told;
use std::alloc::AllocError;
use std::process::ExitCode;
use std::{env, io};
use stores::{Store, bytes_held};
use thiserror::Error;

const HELP: &str = "both_ends: stores bytes into a byte buffer and into a list of words.

    both_ends ADDRESS BYTE [ADDRESS BYTE ..]

Addresses and bytes are written in hex digits. The buffer has 16 bytes and the list 4 words of
32 bits, all zero at first. both_ends prints what each of them answers to each store, the 16 bytes
as each then gives them, and the words.

    $ both_ends 1 5a
    5a at 1: buffer stored, words stored
    buffer 00 5a 00 00 00 00 00 00 00 00 00 00 00 00 00 00
    words  00 5a 00 00 00 00 00 00 00 00 00 00 00 00 00 00
    word by word: 00005a00 00000000 00000000 00000000
    both hold the same bytes
";

/// Why the program ends with status 1.
#[derive(Debug, Drop, Error)]
enum Failure {
    #[error("an address and a byte are missing; try --help")]
    NoArguments,
    #[error("'{0}' is no hex number of 64 bits or fewer; try --help")]
    NotNumber(String),
    #[error("{0}; try --help")]
    Pair(#[from] PairFault),
    #[error("out of memory")]
    Memory(#[from(alloc)] AllocError),
    #[error(transparent)]
    Io(#[from] io::Error),
}

/// The numbers that the arguments write.
fn numbers(rt: &HostRuntime) -> Result<Vec<u64>, Failure> {
    let mut numbers = Vec::new(rt.alloc());
    for argument in env::args(rt)?.skip(1) {
        match hex_number(&argument) {
            // `push` asks for room once; `try_collect` would ask again where it is refused.
            Some(number) => numbers.push(number)?,
            None => return Err(Failure::NotNumber(argument)),
        }
    }
    Ok(numbers)
}

fn print_bytes(rt: &HostRuntime, label: &str, bytes: &[u8]) -> io::Result<()> {
    print!(rt; "{label}")?;
    for byte in bytes {
        print!(rt; " {byte:02x}")?;
    }
    println!(rt; "")
}

/// Carries the stores out, and prints what comes of them.
fn show(rt: &HostRuntime, stores: &[Store]) -> io::Result<()> {
    let mut buffer = [0; 16];
    let mut words = [0; 4];
    let answers = store_in_both(rt.alloc(), &mut buffer, &mut words, stores)?;
    let answered = answers.buffer.iter().zip(&answers.words);
    for (Store { address, byte }, (by_buffer, by_words)) in stores.iter().zip(answered) {
        let (by_buffer, by_words) = (Told(*by_buffer), Told(*by_words));
        println!(rt; "{byte:02x} at {address:x}: buffer {by_buffer}, words {by_words}")?;
    }
    let in_buffer = ByteMemory {
        buffer: &mut buffer,
    };
    let by_buffer = bytes_held(rt.alloc(), &in_buffer)?;
    let in_words = WordMemory { words: &mut words };
    let by_words = bytes_held(rt.alloc(), &in_words)?;
    print_bytes(rt, "buffer", &by_buffer)?;
    print_bytes(rt, "words ", &by_words)?;
    let [first, second, third, fourth] = words;
    println!(rt; "word by word: {first:08x} {second:08x} {third:08x} {fourth:08x}")?;
    let verdict = if by_buffer == by_words {
        "both hold the same bytes"
    } else {
        "they hold different bytes"
    };
    println!(rt; "{verdict}")
}

fn run(rt: &HostRuntime) -> Result<(), Failure> {
    let first = env::args(rt)?.nth(1).ok_or(Failure::NoArguments)?;
    if matches!(first.as_str(), "--help" | "-h") {
        rt.print(HELP)?;
        return Ok(());
    }
    let numbers = numbers(rt)?;
    let stores = stores_in(rt.alloc(), &numbers)?;
    show(rt, &stores)?;
    Ok(())
}

fn main(rt: HostRuntime) -> ExitCode {
    exit_code(&rt, "both_ends", run(&rt))
}
