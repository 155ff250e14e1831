// Branches: the combinations that have some binary places in common and differ in the lower ones. One is cut off where even all undecided bids together cannot
// reach what is sought, or where what is chosen already does not fit. specs/Branches.antt says what each function computes.
#![tactic(auto)]

ghost use Rattle.std.specs.Prelude.{true, ◌≡◌, ◌+◌, ◌≤◌, ◌<◌};
ghost use Rattle.combinations.specs.Combinations.{combinations};
ghost use Rattle.ties.specs.Ties.{Searching, ok_by, last_by, Cuttable};
ghost use Rattle.branches.specs.Branches.{Sized, Branch, Past, Passed, near_by};

pub mod greatest;
pub mod scan;

use combinations::places::{PART, THREE_PARTS, TWO_PARTS};
use combinations::tables::Table;
use sheet::Sheet;
use ties::best::{fitting, last};

// How many combinations a branch has: one in which the lowest part of the number is undecided, the lowest two, the lowest three.
pub const ONE_LOW: u32 = PART as u32;

pub const TWO_LOW: u32 = TWO_PARTS as u32;

pub const THREE_LOW: u32 = THREE_PARTS as u32;

// Can the branch of so many combinations from `mask` on be cut off, where what is sought has at least `goal` in the last year? Its last combination has all of
// the undecided bids, and its first none.
pub fn cut(sheet: &Sheet, table: &Table, goal: u64, mask: u32, size: u32) -> bool
    requires { Searching sheet.now.cells.now sheet.now.size table.now × Cuttable (ok_by sheet.now.cells.now sheet.now.size table.now) (last_by sheet.now.size table.now) × Branch mask size }
    ensures { result ≡ true → Past (ok_by sheet.now.cells.now sheet.now.size table.now) (last_by sheet.now.size table.now) goal mask size }
{
    last(sheet.size, table, mask + (size - 1)) < goal || !fitting(sheet, table, mask)
}

// A combination, and so many of the tie from it on.
#[derive(Clone, Copy)]
pub struct Ahead {
    pub mask: u32,
    pub left: u32,
}

// Of the branch of so many combinations that starts there, if one does, how many from its first on are not sought: all where it can be cut off; all but the last
// where all undecided bids fit, for then one of them can be added to any other; else none is passed over.
pub fn passed(sheet: &Sheet, table: &Table, most: u64, from: Ahead, size: u32) -> u32
    requires searching { Searching sheet.now.cells.now sheet.now.size table.now × Cuttable (ok_by sheet.now.cells.now sheet.now.size table.now) (last_by sheet.now.size table.now) }
    requires left_bound { (from.mask + from.left ≤ combinations) × Sized size }
    ensures { Passed (ok_by sheet.now.cells.now sheet.now.size table.now) (last_by sheet.now.size table.now) most from.mask from.left result }
{
    if from.mask % size > 0 || size > from.left {
        return 0;
    }
    if cut(sheet, table, most, from.mask, size) {
        return size;
    }
    let all = from.mask + (size - 1);
    // what has more than the greatest total does not fit
    if last(sheet.size, table, all) <= most && fitting(sheet, table, all) {
        size - 1
    } else {
        0
    }
}

// Does a combination fit and have the greatest total?
pub fn near(sheet: &Sheet, table: &Table, most: u64, mask: u32) -> bool
    requires { Searching sheet.now.cells.now sheet.now.size table.now × (mask < combinations) }
    ensures { result ≡ near_by (ok_by sheet.now.cells.now sheet.now.size table.now) (last_by sheet.now.size table.now) most mask }
{
    last(sheet.size, table, mask) == most && fitting(sheet, table, mask)
}
