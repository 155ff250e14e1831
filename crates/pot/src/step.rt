// "One look, at a bid alone or at tied bids together, is one step"; and steps to the end.
ghost use Rattle.std.specs.Prelude.{◌≡◌, [], ◌<◌};
ghost use Rattle.rules.specs.Pot.{auction};
ghost use Rattle.sheet.specs.Sheet.{pot_in};
ghost use Rattle.pot.specs.Marks.{Looking, Summed, alone_of};
ghost use Rattle.pot.specs.Rep.{Stands, Seen, Onward};

use super::{Look, PotState};
use sheet::Sheet;

impl PotState {
    // Bid k was taken alone and does not fit: 2.
    pub(crate) fn alone(self, sheet: &Sheet, k: usize) -> PotState
        requires { Looking sheet.now.cells.now sheet.now.size self × (k < sheet.now.size.bids) }
        ensures { result ≡ alone_of sheet.now.cells.now sheet.now.size k self }
    {
        let t = self.turned(k);
        let d = sheet::year(sheet.cells, k);
        if t.follows(sheet, k) {
            t.hung(Some(d))
        } else {
            t.shut(d)
        }
    }

    // One live bid alone has the lowest live price: is it won, or turned down?
    pub(crate) fn sole(self, sheet: &Sheet, seen: Look) -> PotState
        requires { Seen sheet.now.cells.now sheet.now.size self seen × (seen.count ≡ 1) }
        ensures { Onward sheet.now.cells.now sheet.now.size self result }
    {
        let t = self.tried(sheet, seen.last, seen.price);
        if totals::within(sheet.cells, sheet.size, t.totals) {
            t.settled()
        } else {
            self.alone(sheet, seen.last)
        }
    }

    // Several live bids have the lowest live price.
    pub(crate) fn several(self, sheet: &Sheet, seen: Look) -> PotState
        requires { Seen sheet.now.cells.now sheet.now.size self seen × (seen.count ≡ 1 → ⊥) }
        ensures { Onward sheet.now.cells.now sheet.now.size self result }
    {
        let set = self.taken(sheet, seen.price);
        let t = self.trial(sheet, set, seen.price);
        if totals::within(sheet.cells, sheet.size, t.totals) {
            t.settled()
        } else {
            self.tie(sheet, set, seen.price)
        }
    }

    // One look at all live bids of the lowest live price.
    pub fn step(self, sheet: &Sheet, seen: Look) -> PotState
        requires { Seen sheet.now.cells.now sheet.now.size self seen }
        ensures { Onward sheet.now.cells.now sheet.now.size self result }
    {
        if seen.count == 1 {
            self.sole(sheet, seen)
        } else {
            self.several(sheet, seen)
        }
    }

    // Looks while a bid is live, and to the first tie that is too wide.
    pub fn run(self, sheet: &Sheet) -> PotState
        requires { Summed sheet.now.cells.now sheet.now.size self × Stands (pot_in sheet.now.cells.now sheet.now.size) [] self }
        ensures { Stands (pot_in sheet.now.cells.now sheet.now.size) (auction (pot_in sheet.now.cells.now sheet.now.size)) result × Summed sheet.now.cells.now sheet.now.size result }
    {
        let mut s = self;
        while let Some(seen) = s.look(sheet) {
            s = s.step(sheet, seen);
            if s.wide {
                return s;
            }
        }
        s
    }
}
