// "A trial adds bids to the winners, sets the clearing price of their years to their price, revalues every winner".
ghost use Rattle.std.specs.Prelude.{◌≡◌, ◌<◌, length};
ghost use Rattle.rules.specs.Names.{most_deliveries};
ghost use Rattle.totals.specs.Totals.{sums_size, Totalling};
ghost use Rattle.pot.specs.Marks.{Valued, renewed_of, renewed_to, totalled_of, revalued_of, tried_of, trial_of};

use super::PotState;
use names::{BIDS, MOST_DELIVERIES};
use sheet::{Sheet, Size};

impl PotState {
    // The winners that start in year d are revalued at its clearing price.
    pub(crate) fn renewed(mut self, sheet: &Sheet, d: usize) -> PotState
        requires { d < most_deliveries }
        ensures { result ≡ renewed_of sheet.now.cells.now sheet.now.size d self }
    {
        let row = totals::part(sheet, self.marks, self.prices[d], d);
        self.sums = totals::sums::laid(sheet.size, self.sums, row, d);
        self
    }

    // The winners of every year are revalued.
    pub(crate) fn all_renewed(self, sheet: &Sheet) -> PotState
        ensures { result ≡ renewed_to sheet.now.cells.now sheet.now.size self most_deliveries }
    {
        let mut t = self;
        for d in 0..MOST_DELIVERIES {
            t = t.renewed(sheet, d);
        }
        t
    }

    // The row of totals, from the sums.
    pub(crate) fn totalled(mut self, of: Size) -> PotState
        requires { Totalling of self.sums }
        ensures { result ≡ totalled_of of self }
    {
        self.totals = totals::sums::column_totals(of, self.sums);
        self
    }

    // Every winner is revalued: the row of totals.
    pub(crate) fn revalued(self, sheet: &Sheet) -> PotState
        requires { length self.sums ≡ sums_size }
        ensures { result ≡ revalued_of sheet.now.cells.now sheet.now.size self }
    {
        self.all_renewed(sheet).totalled(sheet.size)
    }

    // A trial of one bid: it is added to the winners, the clearing price of its year is its price, and the winners of that year are revalued, since no
    // other's price has changed.
    pub(crate) fn tried(self, sheet: &Sheet, k: usize, price: u64) -> PotState
        requires { Valued sheet.now.cells.now sheet.now.size self × (k < sheet.now.size.bids) }
        ensures { result ≡ tried_of sheet.now.cells.now sheet.now.size price k self }
    {
        let d = sheet::year(sheet.cells, k);
        self.win(sheet, k, price)
            .renewed(sheet, d)
            .totalled(sheet.size)
    }

    // A trial of a set of bids.
    pub(crate) fn trial(self, sheet: &Sheet, set: [bool; BIDS], price: u64) -> PotState
        requires { Valued sheet.now.cells.now sheet.now.size self }
        ensures { result ≡ trial_of sheet.now.cells.now sheet.now.size price set self }
    {
        self.win_all(sheet, set, price).revalued(sheet)
    }
}
