// Round files from a reader, one after the other: for each, two bytes that say how long it is, then the file.
#![tactic(auto)]

ghost use Rattle.std.specs.Prelude.{◌≡◌, length, IfOk};
ghost use Rattle.std.specs.Io.{ReadsAtMost};
ghost use Rattle.cases.specs.Cases.{room, Within};

use std::io;
use std::io::Read;

// Room for the longest round file and bytes after it.
pub const ROOM: usize = 8192;

// No more files are read: a reader need not end.
const MOST_FILES: usize = 1_000_000;

// Reads until `buf` is full or the input ends, and answers how many bytes it put at the start of `buf`. On an empty `buf` it makes no call. Where a read fails,
// what the reads before it gave stands at the start of `buf`, and the reader stands after it.
pub fn read_full<R: Read>(reader: &mut R, buf: &mut [u8]) -> io::Result<usize>
    ensures at_most { ReadsAtMost result buf.new }
    ensures as_long { length buf.new ≡ length buf.old }
{
    let mut done: usize = 0;
    // the step varies
    while done < buf.len() {
        let n = reader.read(&mut buf[done..])?;
        if n == 0 {
            break;
        }
        done += n;
    }
    Ok(done)
}

// The next file is read into `file`: how long it is, or that there is none. Where a read fails, the bytes before the failure are read, and some of them may stand
// in `file`.
pub fn next<R: Read>(reader: &mut R, file: &mut [u8]) -> io::Result<Option<usize>>
    requires { room ≡ length file.old }
    ensures within { IfOk result Within }
    ensures as_long { length file.new ≡ length file.old }
{
    let mut head = [0; names::COUNT_WIDTH];
    if read_full(reader, &mut head)? < names::COUNT_WIDTH {
        return Ok(None);
    }
    let length = usize::from(u16::from_le_bytes(head));
    if length > ROOM || read_full(reader, &mut file[..length])? < length {
        return Ok(None);
    }
    Ok(Some(length))
}

// Lends each file to `print`, one after the other.
pub fn each<R: Read, F: FnMut(&[u8]) -> io::Result<()>>(
    reader: &mut R,
    mut print: F,
) -> io::Result<()>
    requires { F.IsAlwaysCallable print }
{
    let mut file = [0; ROOM];
    for _ in 0..MOST_FILES {
        let Some(length) = next(reader, &mut file)? else {
            return Ok(());
        };
        print(&file[..length])?;
    }
    Ok(())
}
