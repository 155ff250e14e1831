// The state of a pot before the first look.
ghost use Rattle.std.specs.Prelude.{◌≡◌};
ghost use Rattle.pot.specs.Marks.{first_mark, started_of};

use super::PotState;
use names::{APPS, BIDS, MOST_DELIVERIES};
use sheet::{COLUMNS, Sheet};
use totals::marks;

// The mark of a bid that no look has seen.
fn first_mark(entered: bool) -> u16
    ensures { result ≡ first_mark entered }
{
    if entered { marks::FRESH } else { marks::OTHER }
}

// No bid has been looked at: those that are not of this auction are marked so.
pub fn started(sheet: &Sheet) -> PotState
    ensures { result ≡ started_of sheet.now.cells.now sheet.now.size }
{
    let mut marks = [marks::OTHER; BIDS];
    for k in 0..sheet.size.bids {
        marks[k] = first_mark(sheet::in_auction(sheet.cells, k));
    }
    PotState {
        marks,
        won: [false; APPS],
        opened: [true; MOST_DELIVERIES],
        prices: [names::NO_PRICE; MOST_DELIVERIES],
        sums: [0; MOST_DELIVERIES * COLUMNS],
        totals: [0; COLUMNS],
        hang: None,
        wide: false,
        drawn: sheet::drawn(sheet.cells),
    }
}
