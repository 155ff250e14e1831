// Prints the tables of the round file on standard input as a person reads them, or the line of its refusal. Pounds a MWh stand with three
// decimals, MW with two and factors with four; budgets and declared costs stand in pounds and pence, though the file has whole pounds.
#![tactic(auto)]

mod tables;

use rows::RoundFile;
use std::io;

fn show(out: &impl Print, file: &[u8]) -> io::Result<()> {
    match file::read(file) {
        Ok(sections) => tables::print(out, &RoundFile { file, sections }),
        Err(refusal) => text::refused(out, refusal.rule.number(), refusal.at),
    }
}

fn main(rt: HostRuntime) -> io::Result<()> {
    let mut file = layout::blank_file();
    let n = cases::read_full(&mut rt.reader(), &mut file)?;
    show(&rt, &file[..n])
}
