// Prints the listing of the round file on standard input.
#![tactic(auto)]

use std::io;

fn main(rt: HostRuntime) -> io::Result<()> {
    let mut file = layout::blank_file();
    let n = cases::read_full(&mut rt.reader(), &mut file)?;
    let mut text = listing::blank();
    let length = round::list(&file[..n], &mut text);
    if let Some(listed) = text.get(..length) {
        rt.write_all(listed)?;
    }
    Ok(())
}
