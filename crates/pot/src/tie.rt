// Several were taken and do not fit together: 3.
ghost use Rattle.std.specs.Prelude.{◌≡◌};
ghost use Rattle.pot.specs.Marks.{Valued, numbered_of, shared_of, tie_of};

use super::PotState;
use names::BIDS;
use sheet::Sheet;
use ties::Choice;
use totals::marks;

impl PotState {
    // The next tie is drawn by another number, or by none.
    pub(crate) fn numbered(mut self, drawn: Option<u64>) -> PotState
        ensures { result ≡ numbered_of drawn self }
    {
        self.drawn = drawn;
        self
    }

    // Of the bids taken those chosen win; all others are turned down and their years close; the auction goes on with what the choice left of the drawn number.
    pub(crate) fn shared(
        self,
        sheet: &Sheet,
        set: [bool; BIDS],
        choice: Choice,
        price: u64,
    ) -> PotState
        ensures { result ≡ shared_of sheet.now.cells.now sheet.now.size set choice price self }
    {
        let outs = arrays::others(set, choice.wins, sheet.size.bids);
        self.win_all(sheet, choice.wins, price)
            .turn_all(sheet, outs, marks::TIED)
            .hung(None)
            .numbered(choice.drawn)
    }

    // Several were taken and do not fit together: 3.
    pub(crate) fn tie(self, sheet: &Sheet, set: [bool; BIDS], price: u64) -> PotState
        requires { Valued sheet.now.cells.now sheet.now.size self }
        ensures { result ≡ tie_of sheet.now.cells.now sheet.now.size set price self }
    {
        let base = gathering::winners::bases(sheet, self.marks, self.prices, price);
        let rest = ties::alone::rest(sheet, &base, set, price);
        let count = arrays::count(rest, sheet.size.bids);
        if count > names::WIDEST_TIE {
            return self.too_wide();
        }
        let tied = gathering::gathered(sheet, rest, count);
        let choice = search::choose(sheet, &base, tied, price, self.drawn);
        self.shared(sheet, set, choice, price).revalued(sheet)
    }
}
