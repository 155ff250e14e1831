// The best combination, from the largest number down: of equals the first that is found is taken, so that from then on a branch must have more to be gone through.
ghost use Rattle.std.specs.Prelude.{true, ◌≡◌, ◌^◌, ◌≤◌, ◌<◌};
ghost use Rattle.rules.specs.Names.{widest_tie};
ghost use Rattle.combinations.specs.Combinations.{combinations};
ghost use Rattle.ties.specs.Ties.{Searching, ok_by, last_by, best_of, Cuttable};
ghost use Rattle.branches.specs.Branches.{Fallen, Sized, met_of};

use super::scan::shorts;
use super::{ONE_LOW, THREE_LOW, TWO_LOW, cut};
use combinations::places::power;
use combinations::tables::Table;
use sheet::Sheet;
use ties::best::{Best, fitting, last};

// Does a branch of so many combinations end before `left`, and can it be cut off?
fn ends(sheet: &Sheet, table: &Table, goal: u64, left: u32, size: u32) -> bool
    requires searching { Searching sheet.now.cells.now sheet.now.size table.now × Cuttable (ok_by sheet.now.cells.now sheet.now.size table.now) (last_by sheet.now.size table.now) }
    requires left_nonzero { (0 < left) × (left ≤ combinations) × Sized size }
    ensures { result ≡ true → Fallen (ok_by sheet.now.cells.now sheet.now.size table.now) (last_by sheet.now.size table.now) goal left size }
{
    left % size == 0 && cut(sheet, table, goal, left - size, size)
}

// How many combinations before `left` can be passed over.
fn fall(sheet: &Sheet, table: &Table, goal: u64, left: u32) -> u32
    requires searching { Searching sheet.now.cells.now sheet.now.size table.now × Cuttable (ok_by sheet.now.cells.now sheet.now.size table.now) (last_by sheet.now.size table.now) }
    requires left_nonzero { (0 < left) × (left ≤ combinations) }
    ensures { Fallen (ok_by sheet.now.cells.now sheet.now.size table.now) (last_by sheet.now.size table.now) goal left result }
{
    let limit = sheet::limit(sheet.cells, sheet.size.years - 1);
    if left % ONE_LOW > 0 {
        return shorts(sheet.size, table, goal, limit, left);
    }
    // a full budget cannot be bettered
    if limit < goal {
        return left;
    }
    if ends(sheet, table, goal, left, THREE_LOW) {
        return THREE_LOW;
    }
    if ends(sheet, table, goal, left, TWO_LOW) {
        return TWO_LOW;
    }
    if ends(sheet, table, goal, left, ONE_LOW) {
        return ONE_LOW;
    }
    shorts(sheet.size, table, goal, limit, left)
}

// A combination, if it fits and has at least `goal` in the last year.
fn meet(sheet: &Sheet, table: &Table, goal: u64, mask: u32) -> Option<Best>
    requires { Searching sheet.now.cells.now sheet.now.size table.now × (mask < combinations) }
    ensures { result ≡ met_of (ok_by sheet.now.cells.now sheet.now.size table.now) (last_by sheet.now.size table.now) goal mask }
{
    let total = last(sheet.size, table, mask);
    if total >= goal && fitting(sheet, table, mask) {
        Some(Best { mask, total })
    } else {
        None
    }
}

// The best combination of so many bids.
pub fn greatest(sheet: &Sheet, table: &Table, count: usize) -> Best
    requires { Searching sheet.now.cells.now sheet.now.size table.now × Cuttable (ok_by sheet.now.cells.now sheet.now.size table.now) (last_by sheet.now.size table.now) × (count ≤ widest_tie) }
    ensures { result ≡ best_of (ok_by sheet.now.cells.now sheet.now.size table.now) (last_by sheet.now.size table.now) (2 ^ count) }
{
    let mut found = None;
    // what another must have in the last year to be better than the one found, if one is
    let mut goal = 0;
    let mut left = power(count as u32);
    // how many are passed over at once varies
    while left > 0 {
        let passed = fall(sheet, table, goal, left);
        if passed > 0 {
            left -= passed;
        } else {
            left -= 1;
            if let Some(best) = meet(sheet, table, goal, left) {
                found = Some(best);
                goal = best.total + 1;
            }
        }
    }
    found.unwrap_or(Best {
        mask: 0,
        total: last(sheet.size, table, 0),
    })
}
