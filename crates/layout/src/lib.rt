// "Units and the round file": where each section stands in its file, and each field in its record. One module for each kind of record, over
// the part of the file that its section occupies; widths of whole records are in `names`.
#![tactic(auto)]

pub mod application;
pub mod bid;
pub mod kind;
pub mod parts;
pub mod pot;
pub mod technology;
pub mod year;

ghost use Rattle.std.specs.Prelude.{◌≡◌, length};
ghost use Rattle.layout.specs.Layout.{beyond};

// A place past every byte of every round file.
pub const BEYOND: usize = names::LONGEST_FILE + 1;

// Room for a file on standard input. No round file is longer than `LONGEST_FILE` bytes, and no reading goes past that place, so a longer
// input is refused for what stands in its first `BEYOND` bytes.
pub fn blank_file() -> [u8; BEYOND]
    ensures { beyond ≡ length result }
{
    [0; BEYOND]
}
