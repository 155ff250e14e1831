// Says in one line which record of the round file on standard input broke which rule; prints nothing where the file is accepted.
#![tactic(auto)]

mod broken;
mod rule;
mod whose;

use std::io;
use whose::Whose;

fn explain(out: &impl Print, file: &[u8]) -> io::Result<()> {
    let Err(refusal) = file::read(file) else {
        return Ok(());
    };
    let number = refusal.rule.number();
    let what = Whose::of(file, refusal);
    let words = rule::words(file, refusal);
    println!(out; "refused: {what} breaks rule {number}: {words}")
}

fn main(rt: HostRuntime) -> io::Result<()> {
    let mut file = layout::blank_file();
    let n = cases::read_full(&mut rt.reader(), &mut file)?;
    explain(&rt, &file[..n])
}
