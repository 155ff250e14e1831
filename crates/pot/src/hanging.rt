// A year hangs, open though a bid was turned down there, while the sole next lowest live bid is of the same application and year: 2.
ghost use Rattle.std.specs.Prelude.{◌≡◌, ◌<◌};
ghost use Rattle.rules.specs.Names.{most_deliveries};
ghost use Rattle.pot.specs.Marks.{hung_of, shut_of, settled_of};

use super::PotState;
use names::MOST_DELIVERIES;

impl PotState {
    // A year hangs, or none.
    pub(crate) fn hung(mut self, year: Option<usize>) -> PotState
        ensures { result ≡ hung_of year self }
    {
        self.hang = year;
        self
    }

    // Year d closes.
    pub(crate) fn shut(mut self, d: usize) -> PotState
        requires { d < most_deliveries }
        ensures { result ≡ shut_of d self }
    {
        self.opened[d] = false;
        self.hang = None;
        self
    }

    // The year that hangs closes, if one does.
    pub(crate) fn settled(self) -> PotState
        ensures { result ≡ settled_of self }
    {
        // the state alone does not say that it is a delivery year
        match self.hang {
            Some(d) if d < MOST_DELIVERIES => self.shut(d),
            _ => self.hung(None),
        }
    }
}
