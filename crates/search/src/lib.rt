// The search for the combination that a tie takes: as the listing of `ties` goes, but whole branches are passed over in which nothing can be found.
// specs/Search.antt says what each function computes.
#![tactic(auto)]

ghost use Rattle.std.specs.Prelude.{true, ◌≡◌, MatchOption};
ghost use Rattle.sheet.specs.Sheet.{one_more};
ghost use Rattle.combinations.specs.Combinations.{Gathered};
ghost use Rattle.ties.specs.Ties.{Based, Drawing, top_by, table_for, answer_of, choice_of};
ghost use Rattle.added.specs.Added.{Busy, Narrows};

mod kept;

use added::whole::Narrow;
use added::{sound, whole};
use branches::greatest::greatest;
use combinations::tables::{Base, Owns, Table};
use combinations::{Tied, tables};
use kept::Aim;
use sheet::Sheet;
use ties::Choice;
use ties::listing::{Answer, listing};

// Where some bid is worth nothing in the last year: how little a bid counts, and in which column.
fn idle(sheet: &Sheet, own: &Owns, table: &Table, tied: Tied) -> Option<Narrow>
    requires { Drawing sheet.now.cells.now sheet.now.size table.now tied }
    ensures { MatchOption result (Busy sheet.now.size own.now tied) (Narrows sheet.now.size table.now tied.count) }
{
    if !sound::idle(sheet.size, own, tied) {
        return None;
    }
    Some(whole::narrow_column(sheet, table, tied.count as u32))
}

// The combination that a tie takes, and among how many it is drawn, as `listing` has them.
pub fn search(sheet: &Sheet, base: &Base, tied: Tied, price: u64, drawn: Option<u64>) -> Answer
    requires { Based sheet.now.cells.now sheet.now.size base.now × Gathered sheet.now.size tied }
    ensures { result ≡ answer_of sheet.now.cells.now sheet.now.size base.now tied price (one_more drawn) }
{
    if !sound::sound(base, tied) {
        return listing(sheet, base, tied, price, drawn);
    }
    let own = tables::owns(sheet, tied, price);
    let table = tables::table(base, &own, tied);
    let found = greatest(sheet, &table, tied.count);
    let aim = Aim {
        most: found.total,
        idle: idle(sheet, &own, &table, tied),
        place: 0,
    };
    let counts = kept::tally(sheet, &table, tied, aim);
    let ways = counts[kept::STRETCHES];
    let Some(number) = drawn else {
        return Answer {
            mask: found.mask,
            ways,
        };
    };
    if ways == 0 {
        return Answer { mask: 0, ways };
    }
    let aim = Aim {
        place: number % ways,
        ..aim
    };
    let mask = kept::at_place(sheet, &table, tied, aim, &counts);
    Answer { mask, ways }
}

// The two are one: whatever the bids, the listing and the search take the same combination, with the same m.
pub fn agree(sheet: &Sheet, base: &Base, tied: Tied, price: u64, drawn: Option<u64>) -> bool
    requires { Based sheet.now.cells.now sheet.now.size base.now × Gathered sheet.now.size tied }
    ensures { result ≡ true }
{
    let a = listing(sheet, base, tied, price, drawn);
    let b = search(sheet, base, tied, price, drawn);
    a == b
}

// The number of the best combination.
fn top(sheet: &Sheet, base: &Base, tied: Tied, price: u64) -> u32
    requires { Based sheet.now.cells.now sheet.now.size base.now × Gathered sheet.now.size tied }
    ensures { result ≡ top_by sheet.now.cells.now sheet.now.size (table_for sheet.now.cells.now sheet.now.size base.now tied price) tied.count }
{
    let own = tables::owns(sheet, tied, price);
    let table = tables::table(base, &own, tied);
    if sound::sound(base, tied) {
        greatest(sheet, &table, tied.count).mask
    } else {
        ties::best::top(sheet, &table, tied.count).mask
    }
}

// What is chosen among the gathered bids, at a price and by the pot's drawn number. Where there is none, m is not asked for.
pub fn choose(sheet: &Sheet, base: &Base, tied: Tied, price: u64, drawn: Option<u64>) -> Choice
    requires { Based sheet.now.cells.now sheet.now.size base.now × Gathered sheet.now.size tied }
    ensures { result ≡ choice_of sheet.now.cells.now sheet.now.size base.now tied price drawn }
{
    let answer = match drawn {
        Some(_) => search(sheet, base, tied, price, drawn),
        None => Answer {
            mask: top(sheet, base, tied, price),
            ways: 1,
        },
    };
    ties::chosen(tied, answer, drawn)
}
