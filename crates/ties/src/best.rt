// The best combination, by looking at each: what it comes to is read off the table by the parts of its number.
ghost use Rattle.std.specs.Prelude.{◌≡◌, ◌^◌, ◌≤◌, ◌<◌};
ghost use Rattle.rules.specs.Names.{most_years, widest_tie};
ghost use Rattle.combinations.specs.Combinations.{combinations, Tabled};
ghost use Rattle.ties.specs.Ties.{Searching, ok_by, last_by, better_of, best_of};

use combinations::places::power;
use combinations::tables::{Table, joint, union};
use sheet::{Sheet, Size};

// A combination, with its total in the last year.
#[derive(Clone, Copy)]
pub struct Best {
    pub mask: u32,
    pub total: u64,
}

// Does a combination fit? Inlined, since the listing asks it of each combination.
#[inline]
pub fn fitting(sheet: &Sheet, table: &Table, mask: u32) -> bool
    requires { Searching sheet.now.cells.now sheet.now.size table.now × (mask < combinations) }
    ensures { result ≡ ok_by sheet.now.cells.now sheet.now.size table.now mask }
{
    let t = union(table, mask);
    for c in 0..sheet.size.columns {
        if joint(table, mask, t, c) > sheet::limit(sheet.cells, c) {
            return false;
        }
    }
    true
}

// What a combination comes to in the last year.
pub fn last(of: Size, table: &Table, mask: u32) -> u64
    requires { Tabled table.now × (0 < of.years) × (of.years ≤ most_years) × (mask < combinations) }
    ensures { result ≡ last_by of table.now mask }
{
    let t = union(table, mask);
    joint(table, mask, t, of.years - 1)
}

// The better of the best so far and a combination that fits and has a larger number: this one, where its total in the last year is no smaller.
fn better(b: Best, mask: u32, total: u64) -> Best
    ensures { result ≡ better_of b mask total }
{
    if total < b.total {
        b
    } else {
        Best { mask, total }
    }
}

// The best combination of so many bids: of equals the largest number.
pub fn top(sheet: &Sheet, table: &Table, count: usize) -> Best
    requires { Searching sheet.now.cells.now sheet.now.size table.now × (count ≤ widest_tie) }
    ensures { result ≡ best_of (ok_by sheet.now.cells.now sheet.now.size table.now) (last_by sheet.now.size table.now) (2 ^ count) }
{
    let mut b = Best {
        mask: 0,
        total: last(sheet.size, table, 0),
    };
    for mask in 0..power(count as u32) {
        if fitting(sheet, table, mask) {
            b = better(b, mask, last(sheet.size, table, mask));
        }
    }
    b
}
