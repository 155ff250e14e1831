// The plain listing: the best combination, those kept, and which of them is taken, by looking at each. "Among the best combinations keep those to which no other
// tied bid can be added and still fit."
ghost use Rattle.std.specs.Prelude.{◌≡◌, ◌^◌, ◌<◌};
ghost use Rattle.rules.specs.Names.{widest_tie};
ghost use Rattle.sheet.specs.Sheet.{one_more};
ghost use Rattle.combinations.specs.Combinations.{combinations, Gathered};
ghost use Rattle.ties.specs.Ties.{Based, Searching, Drawing, ok_by, addable_of, full_to, kept_by, counted_of, listed_of, answer_of};

use super::best::{fitting, last, top};
use combinations::places::{member, power};
use combinations::tables::{Base, Table};
use combinations::{Tied, tables};
use sheet::Sheet;

// So many combinations, and the one of them at a place.
#[derive(Clone, Copy)]
pub struct Listed {
    pub count: u64,
    pub mask: u32,
}

// The combination that a tie takes, and the number of those kept, m.
#[derive(Clone, Copy, PartialEq, Eq)]
pub struct Answer {
    pub mask: u32,
    pub ways: u64,
}

// Can the bid at a binary place be added to a combination and still fit?
pub fn addable(sheet: &Sheet, table: &Table, mask: u32, place: u32) -> bool
    requires { Searching sheet.now.cells.now sheet.now.size table.now × (mask < combinations) × (place < widest_tie) }
    ensures { result ≡ addable_of (ok_by sheet.now.cells.now sheet.now.size table.now) mask place }
{
    !member(mask, place) && fitting(sheet, table, mask + power(place))
}

// Can no other bid be added? Asked of the bids one after the other, each at its binary place.
pub fn full(sheet: &Sheet, table: &Table, tied: Tied, mask: u32) -> bool
    requires { Drawing sheet.now.cells.now sheet.now.size table.now tied × (mask < combinations) }
    ensures { result ≡ full_to (ok_by sheet.now.cells.now sheet.now.size table.now) tied.ranks mask tied.count }
{
    for j in 0..tied.count {
        if addable(sheet, table, mask, tied.ranks[j]) {
            return false;
        }
    }
    true
}

// Is a combination kept, where the greatest total in the last year is `most`?
fn kept(sheet: &Sheet, table: &Table, tied: Tied, most: u64, mask: u32) -> bool
    requires { Drawing sheet.now.cells.now sheet.now.size table.now tied × (mask < combinations) }
    ensures { result ≡ kept_by sheet.now.cells.now sheet.now.size table.now tied most mask }
{
    fitting(sheet, table, mask)
        && last(sheet.size, table, mask) == most
        && full(sheet, table, tied, mask)
}

// One combination more, with a larger number: the one at the place, where as many as that were before it.
pub fn counted(before: Listed, mask: u32, place: u64) -> Listed
    requires { before.count < combinations }
    ensures { result ≡ counted_of before mask place }
{
    let count = before.count + 1;
    if before.count == place {
        Listed { count, mask }
    } else {
        Listed { count, ..before }
    }
}

// Those kept, from the smallest number on: how many, and the one at a place.
fn list_kept(sheet: &Sheet, table: &Table, tied: Tied, most: u64, place: u64) -> Listed
    requires { Drawing sheet.now.cells.now sheet.now.size table.now tied }
    ensures { result ≡ listed_of (kept_by sheet.now.cells.now sheet.now.size table.now tied most) place (2 ^ tied.count) }
{
    let mut list = Listed { count: 0, mask: 0 };
    for mask in 0..power(tied.count as u32) {
        if kept(sheet, table, tied, most, mask) {
            list = counted(list, mask, place);
        }
    }
    list
}

// "Take the one at place (drawn number mod m), counting from 0." Where no number is drawn, the best is taken.
pub fn listing(sheet: &Sheet, base: &Base, tied: Tied, price: u64, drawn: Option<u64>) -> Answer
    requires { Based sheet.now.cells.now sheet.now.size base.now × Gathered sheet.now.size tied }
    ensures { result ≡ answer_of sheet.now.cells.now sheet.now.size base.now tied price (one_more drawn) }
{
    let own = tables::owns(sheet, tied, price);
    let table = tables::table(base, &own, tied);
    let found = top(sheet, &table, tied.count);
    let first = list_kept(sheet, &table, tied, found.total, 0);
    let ways = first.count;
    let Some(number) = drawn else {
        return Answer {
            mask: found.mask,
            ways,
        };
    };
    // no tie of an auction is so: its winners fit, and then the best combination is one of those kept
    if ways == 0 {
        return Answer { mask: 0, ways };
    }
    let list = list_kept(sheet, &table, tied, found.total, number % ways);
    Answer {
        mask: list.mask,
        ways,
    }
}
