// Can no other bid be added to a combination? As `ties::listing::full` has it, by binary places. None can where a column has less left than any bid counts. What is
// too much for one bid is often too much for the next, so the column that barred the last one is asked first; and only a bid that no column bars by itself is tried.
ghost use Rattle.std.specs.Prelude.{true, false, ◌≡◌, ◌≤◌, ◌<◌};
ghost use Rattle.rules.specs.Names.{widest_tie};
ghost use Rattle.sheet.specs.Sheet.{columns};
ghost use Rattle.combinations.specs.Combinations.{combinations, most_base, Tabled, Joining};
ghost use Rattle.ties.specs.Ties.{Searching, ok_by};
ghost use Rattle.added.specs.Added.{alone_by, left_by, Adds, Known, Least, Narrows, Roomed, Bars, Asks, Closes};

use combinations::places::{PART_PLACES, member, power};
use combinations::tables::{Table, joint, part_cost, union};
use sheet::Sheet;
use ties::best::fitting;
use ties::listing::addable;

// What the bid at a binary place counts in column c.
fn alone(table: &Table, place: u32, c: usize) -> u64
    requires { Tabled table.now × (place < widest_tie) × (c < columns) }
    ensures { (result ≡ alone_by table.now place c) × (result ≤ most_base) }
{
    let places = PART_PLACES as u32;
    let v = power(place % places) as usize;
    part_cost(table, (place / places) as usize, v, c)
}

// A column, the least that a bid of the tie counts in it, and the binary place of such a bid.
#[derive(Clone, Copy)]
pub struct Narrow {
    pub column: usize,
    pub least: u64,
    pub place: u32,
}

// Of so many bids, in column c.
fn least(table: &Table, count: u32, c: usize) -> Narrow
    requires { Tabled table.now × (count ≤ widest_tie) × (c < columns) }
    ensures { (result.column ≡ c) × Least table.now count c result.least }
{
    let mut least = alone(table, 0, c);
    let mut first: u32 = 0;
    for place in 1..count {
        let own = alone(table, place, c);
        if own < least {
            least = own;
            first = place;
        }
    }
    Narrow {
        column: c,
        least,
        place: first,
    }
}

// In the first column that all of so many bids together are too much for.
pub fn narrow_column(sheet: &Sheet, table: &Table, count: u32) -> Narrow
    requires { Searching sheet.now.cells.now sheet.now.size table.now × (count ≤ widest_tie) }
    ensures { Narrows sheet.now.size table.now count result }
{
    let all = power(count) - 1;
    let years = union(table, all);
    for c in 0..sheet.size.columns {
        if joint(table, all, years, c) > sheet::limit(sheet.cells, c) {
            return least(table, count, c);
        }
    }
    least(table, count, 0)
}

// A combination, and the delivery years that it touches.
#[derive(Clone, Copy)]
pub struct At {
    pub mask: u32,
    pub years: usize,
}

// What it leaves of the limit of column c.
fn left(sheet: &Sheet, table: &Table, at: At, c: usize) -> u64
    requires { Joining table.now at.mask at.years × (c < columns) }
    ensures { result ≡ left_by sheet.now.cells.now table.now at.mask at.years c }
{
    sheet::limit(sheet.cells, c).saturating_sub(joint(table, at.mask, at.years, c))
}

// A column, and what the combination leaves of its limit.
#[derive(Clone, Copy)]
pub struct Room {
    pub column: usize,
    pub left: u64,
}

// A column that has less left than the bid at a binary place counts in it, if there is one.
fn bar(sheet: &Sheet, table: &Table, at: At, place: u32) -> Option<Room>
    requires { Joining table.now at.mask at.years × (place < widest_tie) × (sheet.now.size.columns ≤ columns) }
    ensures { Bars sheet.now.cells.now sheet.now.size table.now at.mask at.years place result }
{
    for column in 0..sheet.size.columns {
        let left = left(sheet, table, at, column);
        if alone(table, place, column) > left {
            return Some(Room { column, left });
        }
    }
    None
}

// The column to be asked first of the next bid, where this one, at a binary place, cannot be added; where it can, none.
fn ask(sheet: &Sheet, table: &Table, at: At, place: u32, room: Room) -> Option<Room>
    requires { Searching sheet.now.cells.now sheet.now.size table.now × Adds table.now × Known table.now at.mask at.years × (place < widest_tie) × Roomed sheet.now.cells.now sheet.now.size table.now at.mask at.years room }
    ensures { Asks sheet.now.cells.now sheet.now.size table.now at.mask at.years place result }
{
    if member(at.mask, place) || alone(table, place, room.column) > room.left {
        return Some(room);
    }
    if let Some(next) = bar(sheet, table, at, place) {
        return Some(next);
    }
    if fitting(sheet, table, at.mask + power(place)) {
        return None;
    }
    Some(room)
}

// Can none of so many bids be added?
pub fn whole(sheet: &Sheet, table: &Table, count: u32, narrow: Narrow, mask: u32) -> bool
    requires { Searching sheet.now.cells.now sheet.now.size table.now × Adds table.now × (count ≤ widest_tie) × Narrows sheet.now.size table.now count narrow × (mask < combinations) }
    ensures { Closes (ok_by sheet.now.cells.now sheet.now.size table.now) mask count result }
{
    let at = At {
        mask,
        years: union(table, mask),
    };
    let column = narrow.column;
    let left = left(sheet, table, at, column);
    if left < narrow.least {
        return true;
    }
    // the bid that counts least is the likeliest to fit
    if narrow.place < count && addable(sheet, table, mask, narrow.place) {
        return false;
    }
    let mut room = Room { column, left };
    for place in 0..count {
        let Some(next) = ask(sheet, table, at, place, room) else {
            return false;
        };
        room = next;
    }
    true
}
