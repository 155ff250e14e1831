// Prints the reading of each file on standard input.
#![tactic(auto)]

use rules::Sections;
use std::io;

fn accepted(out: &impl Print, sections: Sections) -> io::Result<()> {
    let Sections {
        years,
        deliveries,
        pots,
        technologies,
        applications,
        bids,
        ..
    } = sections;
    println!(out; "accepted {years} {deliveries} {pots} {technologies} {applications} {bids}")
}

fn print(out: &impl Print, file: &[u8]) -> io::Result<()> {
    match file::read(file) {
        Ok(sections) => accepted(out, sections),
        Err(refusal) => text::refused(out, refusal.rule.number(), refusal.at),
    }
}

fn main(rt: HostRuntime) -> io::Result<()> {
    cases::each(&mut rt.reader(), |file| print(&rt, file))
}
