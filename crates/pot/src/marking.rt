// What becomes of bids: they win, or are turned down and their years close.
ghost use Rattle.std.specs.Prelude.{◌≡◌, ℕ, ◌<◌, ◌≤◌};
ghost use Rattle.rules.specs.Names.{most_bids};
ghost use Rattle.arrays.specs.Sets.{members};
ghost use Rattle.pot.specs.Marks.{Each, win_of, turn_of, win_all, turn_all, turned_of, widened};
ghost use Rattle.pot.specs.declared.PotState.{PotState};

use super::PotState;
use names::BIDS;
use sheet::{Sheet, Size};
use totals::marks;

impl PotState {
    // Bid k wins at a price.
    pub(crate) fn win(mut self, sheet: &Sheet, k: usize, price: u64) -> PotState
        requires { k < sheet.now.size.bids }
        ensures { result ≡ win_of sheet.now.cells.now price k self }
    {
        let a = sheet::app(sheet.cells, k);
        let d = sheet::year(sheet.cells, k);
        self.marks[k] = marks::WON;
        self.won[a] = true;
        self.prices[d] = price;
        self
    }

    // Bid k is turned down for a reason, and its year closes.
    pub(crate) fn turn(mut self, sheet: &Sheet, k: usize, mark: u16) -> PotState
        requires { k < sheet.now.size.bids }
        ensures { result ≡ turn_of sheet.now.cells.now mark k self }
    {
        let d = sheet::year(sheet.cells, k);
        self.marks[k] = mark;
        self.opened[d] = false;
        self
    }

    // What becomes of each bid of a set, one after the other.
    fn each<F: Fn(PotState, usize) -> PotState>(
        self,
        of: Size,
        set: [bool; BIDS],
        mark: F,
    ) -> PotState
        requires few { of.bids ≤ most_bids }
        requires callable { (s : PotState) (k : ℕ) → k < of.bids → F.pre mark s k }
        ensures { Each (λ s k r. F.post mark s k r) self (members set of.bids) result }
    {
        let mut t = self;
        for k in 0..of.bids {
            if set[k] {
                t = mark(t, k);
            }
        }
        t
    }

    // The bids of a set are added to the winners, at a clearing price of their years.
    pub(crate) fn win_all(self, sheet: &Sheet, set: [bool; BIDS], price: u64) -> PotState
        ensures { result ≡ win_all sheet.now.cells.now price self (members set sheet.now.size.bids) }
    {
        self.each(sheet.size, set, |t, k| t.win(sheet, k, price))
    }

    // The bids of a set are turned down for a reason, and their years close.
    pub(crate) fn turn_all(self, sheet: &Sheet, set: [bool; BIDS], mark: u16) -> PotState
        ensures { result ≡ turn_all sheet.now.cells.now mark self (members set sheet.now.size.bids) }
    {
        self.each(sheet.size, set, |t, k| t.turn(sheet, k, mark))
    }

    // Bid k is turned down alone; its year is left to `hung` and `shut`.
    pub(crate) fn turned(mut self, k: usize) -> PotState
        requires { k < most_bids }
        ensures { result ≡ turned_of k self }
    {
        self.marks[k] = marks::ALONE;
        self.hang = None;
        self
    }

    // A tie was too wide.
    pub(crate) fn too_wide(mut self) -> PotState
        ensures { result ≡ widened self }
    {
        self.wide = true;
        self
    }
}
