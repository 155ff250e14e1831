// Prints the listing of each file on standard input.
#![tactic(auto)]

use std::io;

// Prints the listing of a file.
fn print(out: &impl Print, file: &[u8]) -> io::Result<()> {
    let mut text = listing::blank();
    let length = round::list(file, &mut text);
    if let Some(listed) = text.get(..length) {
        out.write_all(listed)?;
    }
    Ok(())
}

fn main(rt: HostRuntime) -> io::Result<()> {
    cases::each(&mut rt.reader(), |file| print(&rt, file))
}
