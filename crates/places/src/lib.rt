// Counts and places of a file that may end before them, to speak of a refused file to a person.
#![tactic(auto)]

ghost use Rattle.std.specs.Prelude.{◌≡◌, ◌+◌, ◌<◌, ◌≤◌, min};
ghost use Rattle.layout.specs.Layout.{beyond};
ghost use Rattle.places.specs.Places.{held};

// The count at `at`, 0 where the file ends before.
pub fn count(file: &[u8], at: usize) -> usize
    ensures { (result ≡ held file.now at) × (result < 65536) }
{
    if at.saturating_add(names::COUNT_WIDTH) <= file.len() {
        fields::le16(file, at) as usize
    } else {
        0
    }
}

// The place so many bytes after another, or the place past every file.
pub fn on(at: usize, width: usize) -> usize
    ensures { (result ≡ min (at + width) beyond) × (result ≤ beyond) }
{
    at.saturating_add(width).min(layout::BEYOND)
}
