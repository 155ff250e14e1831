// "A reader holds the file and its place in it." Thin functions take it apart and call those on slice and number.
#![tactic(auto)]

ghost use Rattle.std.specs.Prelude.{◌≡◌, ◌+◌, ◌-◌, ◌≤◌, ◌<◌, ◌^◌, length};
ghost use Rattle.rules.specs.Names.{count_width};
ghost use Rattle.rules.specs.Bytes.{le, part};

#[derive(Clone, Copy)]
pub struct Reader<'a> {
    pub file: &'a [u8],
    pub at: usize,
}

// ---- the work, on slice and number

// The part of a file from `at` to `next`, or to where the file ends.
pub fn part_to(file: &[u8], at: usize, next: usize) -> &[u8]
    ensures { result.now ≡ part file.now at next }
{
    let end = next.min(file.len());
    &file[at.min(end)..end]
}

// How many bytes of a file are left at `at`.
pub fn left(file: &[u8], at: usize) -> usize
    ensures { result ≡ length file.now - at }
{
    file.len().saturating_sub(at)
}

// ---- the reader

// A reader at a place of a file.
pub fn placed<'a>(file: &'a [u8], at: usize) -> Reader<'a>
    ensures { (result.file ≡ file.entry) × (result.at ≡ at) }
{
    Reader { file, at }
}

// The reader moved past n bytes.
pub fn past<'a>(r: Reader<'a>, n: usize) -> Reader<'a>
    requires { r.at + n < 2 ^ 64 }
    ensures { (result.file ≡ r.entry.file) × (result.at ≡ r.entry.at + n) }
{
    Reader { at: r.at + n, ..r }
}

// The count at the reader's place.
pub fn count<'a>(r: Reader<'a>) -> u64
    requires { r.at + count_width ≤ length r.file.now }
    ensures { (result ≡ le count_width r.entry.file.now r.entry.at) × (result < 65536) }
{
    fields::le16(r.file, r.at)
}

// The part of the file from the reader's place to `next`, uncopied.
pub fn section<'a>(r: Reader<'a>, next: usize) -> &'a [u8]
    ensures { result.now ≡ part r.entry.file.now r.entry.at next }
{
    part_to(r.file, r.at, next)
}

// ---- for callers with a plain slice and numbers

// The count that stands at `at`.
pub fn count_at(file: &[u8], at: usize) -> u64
    requires { at + count_width ≤ length file.now }
    ensures { (result ≡ le count_width file.now at) × (result < 65536) }
{
    count(placed(file, at))
}

// "Five sections stand in this order, each after its 2-byte count": the records of the section whose count stands at `at`, up to `next`.
pub fn records_after(file: &[u8], at: usize, next: usize) -> &[u8]
    requires { at + count_width < 2 ^ 64 }
    ensures { (result.now ≡ part file.now (at + count_width) next) × (length result.now ≤ length file.now - (at + count_width)) }
{
    section(past(placed(file, at), names::COUNT_WIDTH), next)
}
