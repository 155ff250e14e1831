// Prints how a bid of the round file on standard input is valued at its own price, year by year, as a bookkeeper works it by pencil: the bid
// that the argument names, or every bid where there is none. Of a file that is refused it prints the line of the refusal.
#![tactic(auto)]

mod asked;
mod valued;

use rows::RoundFile;
use std::env::{Env, FillError};
use std::io;

// Every bid.
fn all(out: &impl Print, round: &RoundFile) -> io::Result<()> {
    for k in 0..round.sections.bids {
        valued::bid(out, round, k)?;
    }
    Ok(())
}

// The bid that a word names.
fn one(out: &impl Print, round: &RoundFile, word: &[u8]) -> io::Result<()> {
    match asked::number(word) {
        Some(k) if k < round.sections.bids => valued::bid(out, round, k),
        _ => {
            print!(out; "no bid ")?;
            out.write_all(word)?;
            println!(out;)
        }
    }
}

// A word too long for the room names no bid, as an empty one does.
fn accepted(rt: &(impl Print + Env), round: &RoundFile) -> io::Result<()> {
    let mut word = [0u8; 16];
    match rt.arg(1, &mut word) {
        Ok(length) => one(rt, round, &word[..length]),
        Err(FillError::TooLong) => one(rt, round, b""),
        Err(FillError::NotPresent) => all(rt, round),
    }
}

fn print(rt: &(impl Print + Env), file: &[u8]) -> io::Result<()> {
    match file::read(file) {
        Ok(sections) => accepted(rt, &RoundFile { file, sections }),
        Err(refusal) => text::refused(rt, refusal.rule.number(), refusal.at),
    }
}

fn main(rt: HostRuntime) -> io::Result<()> {
    let mut file = layout::blank_file();
    let n = cases::read_full(&mut rt.reader(), &mut file)?;
    print(&rt, &file[..n])
}
