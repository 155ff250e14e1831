// Those kept, from the smallest number on: how many, counted stretch by stretch, and the one at a place, for which its stretch alone is gone through once more.
ghost use Rattle.std.specs.Prelude.{true, ◌≡◌, ◌+◌, ◌^◌, ◌≤◌, ◌<◌, MatchOption};
ghost use Rattle.combinations.specs.Combinations.{combinations};
ghost use Rattle.ties.specs.Ties.{Searching, Cuttable, ok_by, last_by, full_to, kept_by, listed_of};
ghost use Rattle.branches.specs.Branches.{Passed, near_by};
ghost use Rattle.search.specs.Search.{Seeking, stretches, stretch_end, Tallied, Stands, TooFew, place_of};

use added::whole::{Narrow, whole};
use branches::scan::others;
use branches::{Ahead, ONE_LOW, THREE_LOW, TWO_LOW, near, passed};
use combinations::Tied;
use combinations::places::{PART, power};
use combinations::tables::Table;
use sheet::Sheet;
use ties::listing::{Listed, counted};

// A stretch is a branch in which the lowest three parts are undecided: so many has a tie of twenty bids.
pub const STRETCHES: usize = PART;

// Where a bid is worth nothing in the last year, branches in which two binary places are undecided are looked at too.
const TWO_PLACES: u32 = 4;

// What is sought: the greatest total in the last year; where a bid is worth nothing then, how little a bid counts (where none is, no bid can be added to a
// combination that has the greatest); and the place of the one that is asked for.
#[derive(Clone, Copy)]
pub struct Aim {
    pub most: u64,
    pub idle: Option<Narrow>,
    pub place: u64,
}

// How many from there on can be passed over: a branch, or those of one that have another total; where a bid is idle most have the same, and a small branch is
// tried instead.
fn rise(sheet: &Sheet, table: &Table, aim: Aim, from: Ahead) -> u32
    requires searching { Searching sheet.now.cells.now sheet.now.size table.now × Cuttable (ok_by sheet.now.cells.now sheet.now.size table.now) (last_by sheet.now.size table.now) }
    requires left_nonzero { (0 < from.left) × (from.mask + from.left ≤ combinations) }
    ensures { Passed (ok_by sheet.now.cells.now sheet.now.size table.now) (last_by sheet.now.size table.now) aim.most from.mask from.left result }
{
    if from.mask % ONE_LOW == 0 {
        let three = passed(sheet, table, aim.most, from, THREE_LOW);
        if three > 0 {
            return three;
        }
        let two = passed(sheet, table, aim.most, from, TWO_LOW);
        if two > 0 {
            return two;
        }
        let one = passed(sheet, table, aim.most, from, ONE_LOW);
        if one > 0 {
            return one;
        }
    }
    if aim.idle.is_some() {
        return passed(sheet, table, aim.most, from, TWO_PLACES);
    }
    others(sheet.size, table, aim.most, from.mask).min(from.left)
}

// Can no other bid be added to one that is near? Where each bid is worth something in the last year none can.
fn full(sheet: &Sheet, table: &Table, tied: Tied, aim: Aim, mask: u32) -> bool
    requires seeking { Seeking sheet.now.cells.now sheet.now.size table.now tied aim × (mask < 2 ^ tied.count) }
    requires near { near_by (ok_by sheet.now.cells.now sheet.now.size table.now) (last_by sheet.now.size table.now) aim.most mask ≡ true }
    ensures { result ≡ full_to (ok_by sheet.now.cells.now sheet.now.size table.now) tied.ranks mask tied.count }
{
    let Some(narrow) = aim.idle else {
        return true;
    };
    whole(sheet, table, tied.count as u32, narrow, mask)
}

// The combinations from `mask` on and before `end`; and of those before, how many are kept and the one at a place.
#[derive(Clone, Copy)]
pub struct Stretch {
    pub mask: u32,
    pub end: u32,
    pub list: Listed,
}

// Those kept before its end: how many, and the one at a place.
fn walk(sheet: &Sheet, table: &Table, tied: Tied, aim: Aim, on: Stretch) -> Listed
    requires seeking { Seeking sheet.now.cells.now sheet.now.size table.now tied aim × (on.mask ≤ on.end) × (on.end ≤ 2 ^ tied.count) }
    requires list_value { on.list ≡ listed_of (kept_by sheet.now.cells.now sheet.now.size table.now tied aim.most) aim.place on.mask }
    ensures { result ≡ listed_of (kept_by sheet.now.cells.now sheet.now.size table.now tied aim.most) aim.place on.end }
{
    let Stretch {
        mut mask,
        end,
        mut list,
    } = on;
    // Not a `for`: as many are passed over as `rise` says.
    while mask < end {
        let from = Ahead {
            mask,
            left: end - mask,
        };
        let passed = rise(sheet, table, aim, from);
        if passed > 0 {
            mask += passed;
        } else {
            if near(sheet, table, aim.most, mask) && full(sheet, table, tied, aim, mask) {
                list = counted(list, mask, aim.place);
            }
            mask += 1;
        }
    }
    list
}

// Where the first k stretches of so many combinations end.
fn stretch_end(end: u32, k: usize) -> u32
    requires { (end ≤ combinations) × (k ≤ stretches) }
    ensures { result ≡ stretch_end end k }
{
    (k as u32 * THREE_LOW).min(end)
}

// How many are kept before the first stretch, before the second, and so on, and last of all.
pub fn tally(sheet: &Sheet, table: &Table, tied: Tied, aim: Aim) -> [u64; STRETCHES + 1]
    requires { Seeking sheet.now.cells.now sheet.now.size table.now tied aim }
    ensures { Tallied (kept_by sheet.now.cells.now sheet.now.size table.now tied aim.most) (2 ^ tied.count) stretches result }
{
    let all = power(tied.count as u32);
    let mut out = [0u64; STRETCHES + 1];
    let mut list = Listed { count: 0, mask: 0 };
    for k in 0..STRETCHES {
        let mask = stretch_end(all, k);
        let end = stretch_end(all, k + 1);
        list = walk(sheet, table, tied, aim, Stretch { mask, end, list });
        out[k + 1] = list.count;
    }
    out
}

// The stretch that has the one at a place; none where there are too few.
fn stretch_of(counts: &[u64; STRETCHES + 1], place: u64) -> Option<usize>
    ensures { MatchOption result (TooFew counts.now place) (λ k. Stands counts.now place k) }
{
    for k in 0..STRETCHES {
        if place < counts[k + 1] {
            return Some(k);
        }
    }
    None
}

// The one at a place.
pub fn at_place(
    sheet: &Sheet,
    table: &Table,
    tied: Tied,
    aim: Aim,
    counts: &[u64; STRETCHES + 1],
) -> u32
    requires { Seeking sheet.now.cells.now sheet.now.size table.now tied aim × Tallied (kept_by sheet.now.cells.now sheet.now.size table.now tied aim.most) (2 ^ tied.count) stretches counts.now }
    ensures { result ≡ place_of (kept_by sheet.now.cells.now sheet.now.size table.now tied aim.most) (2 ^ tied.count) aim.place }
{
    let Some(k) = stretch_of(counts, aim.place) else {
        return 0;
    };
    let all = power(tied.count as u32);
    let mask = stretch_end(all, k);
    let end = stretch_end(all, k + 1);
    let list = Listed {
        count: counts[k],
        mask: 0,
    };
    walk(sheet, table, tied, aim, Stretch { mask, end, list }).mask
}
