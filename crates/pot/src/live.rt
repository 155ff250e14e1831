// "Live bids are those not yet looked at, of an application that has not won, in an open year": a look at those of the lowest live price.
ghost use Rattle.std.specs.Prelude.{◌≡◌, not, ◌&&◌, ◌<◌, eqb, IfSome, MatchOption};
ghost use Rattle.rules.specs.Names.{most_bids, no_price, no_reason};
ghost use Rattle.arrays.specs.Sets.{built};
ghost use Rattle.pot.specs.Marks.{Looking, Looked, NoneLive, joined_of, at_of, follows_of};

use super::{Look, PotState};
use names::BIDS;
use sheet::Sheet;
use totals::marks;

// Is a bid live?
fn live(mark: u16, won: bool, opened: bool) -> bool
    ensures { result ≡ (eqb mark no_reason && (not won && opened)) }
{
    mark == marks::FRESH && !won && opened
}

// Is a bid live, and its price that of the look?
fn at(alive: bool, price: u64, lowest: u64) -> bool
    ensures { result ≡ (alive && eqb price lowest) }
{
    alive && price == lowest
}

// A look that sees one more live bid, k at a price.
fn joined(seen: Option<Look>, price: u64, k: usize) -> Look
    requires { IfSome seen (λ l. l.count < most_bids) }
    ensures { result ≡ joined_of seen price k }
{
    match seen {
        Some(seen) if seen.price < price => seen,
        Some(seen) if seen.price == price => Look {
            price,
            count: seen.count + 1,
            last: k,
        },
        _ => Look {
            price,
            count: 1,
            last: k,
        },
    }
}

impl PotState {
    // One pass over the bids of the pot.
    pub fn look(self, sheet: &Sheet) -> Option<Look>
        requires { Looking sheet.now.cells.now sheet.now.size self }
        ensures { MatchOption result (NoneLive sheet.now.cells.now sheet.now.size self) (λ l. Looked sheet.now.cells.now sheet.now.size self l × (l.price < no_price)) }
    {
        let mut seen = None;
        for j in 0..sheet.size.entered {
            let k = sheet::entrant(sheet.cells, j);
            let a = sheet::app(sheet.cells, k);
            let d = sheet::year(sheet.cells, k);
            if live(self.marks[k], self.won[a], self.opened[d]) {
                seen = Some(joined(seen, sheet::price(sheet.cells, k), k));
            }
        }
        seen
    }

    // The live bids at a price.
    pub(crate) fn taken(self, sheet: &Sheet, price: u64) -> [bool; BIDS]
        ensures { result ≡ built (at_of sheet.now.cells.now self price) sheet.now.size.bids }
    {
        let mut set = [false; BIDS];
        for k in 0..sheet.size.bids {
            let a = sheet::app(sheet.cells, k);
            let d = sheet::year(sheet.cells, k);
            set[k] = at(
                live(self.marks[k], self.won[a], self.opened[d]),
                sheet::price(sheet.cells, k),
                price,
            );
        }
        set
    }

    // Is the sole next lowest live bid of bid k's application and year?
    pub(crate) fn follows(self, sheet: &Sheet, k: usize) -> bool
        requires { Looking sheet.now.cells.now sheet.now.size self × (k < sheet.now.size.bids) }
        ensures { result ≡ follows_of sheet.now.cells.now sheet.now.size k self }
    {
        match self.look(sheet) {
            Some(seen) if seen.count == 1 => {
                sheet::app(sheet.cells, seen.last) == sheet::app(sheet.cells, k)
                    && sheet::year(sheet.cells, seen.last) == sheet::year(sheet.cells, k)
            }
            _ => false,
        }
    }
}
