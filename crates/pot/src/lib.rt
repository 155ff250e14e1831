// The state of a pot by value, and its steps: what is live, what is taken, trials, and one look after the other to the end.
// specs/Marks.antt says what the functions over the arrays compute, specs/Rep.antt what the arrays stand for.
#![tactic(auto)]

ghost use Rattle.rules.specs.Pot.{auction};
ghost use Rattle.sheet.specs.Sheet.{pot_in};
ghost use Rattle.pot.specs.Marks.{Summed};
ghost use Rattle.pot.specs.Rep.{Stands};

mod hanging;
mod live;
mod marking;
mod start;
mod step;
mod tie;
mod trial;

use names::{APPS, BIDS, MOST_DELIVERIES};
use sheet::{COLUMNS, Sheet};
use totals::sums::Sums;

// The marks of every bid, the applications that have won, the years that are open, and the clearing price of each year.
#[derive(Clone, Copy)]
pub struct PotState {
    pub marks: [u16; BIDS],
    pub won: [bool; APPS],
    pub opened: [bool; MOST_DELIVERIES],
    pub prices: [u64; MOST_DELIVERIES],
    pub sums: Sums,
    // what all winners count: the row of totals
    pub totals: [u64; COLUMNS],
    // the year left open though a bid was turned down there, if there is one
    pub hang: Option<usize>,
    // a tie was too wide
    pub wide: bool,
    // the number that the next tie is drawn by, if there is one
    pub drawn: Option<u64>,
}

// What a look at the live bids sees, where there is one: the lowest price, how many bids carry it, and the last of these in the order of the file.
#[derive(Clone, Copy)]
pub struct Look {
    pub price: u64,
    pub count: usize,
    pub last: usize,
}

// The auction of a pot.
pub fn auction(sheet: &Sheet) -> PotState
    ensures { Stands (pot_in sheet.now.cells.now sheet.now.size) (auction (pot_in sheet.now.cells.now sheet.now.size)) result × Summed sheet.now.cells.now sheet.now.size result }
{
    start::started(sheet).run(sheet)
}
