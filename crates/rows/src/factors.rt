// What the exact cost of a bid in a year is the product of, beside its price: "load factor in y × hours × capacity × (1 − TLM in y) × RQM".
ghost use Rattle.std.specs.Prelude.{◌≡◌, ◌*◌, ◌≤◌, ◌<◌};
ghost use Rattle.rules.specs.Names.{long_year, largest_capacity, day_hours};
ghost use Rattle.rules.specs.Value.{hours_of, most_energy, most_share};
ghost use Rattle.layout.specs.Layout.{bid_shown};
ghost use Rattle.rows.specs.Rows.{round_in};
ghost use Rattle.rows.specs.Factors.{InScale, FactorsOf};

use super::RoundFile;
use layout::bid::Bid;
use layout::{parts, year};

// Each at its scale, and the reference price with them. What is kept after losses is 1 − TLM.
#[derive(Clone, Copy)]
pub struct Factors {
    pub reference: u64,
    pub load: u64,
    pub hours: u64,
    pub capacity: u64,
    pub kept: u64,
    pub rqm: u64,
}

// "Hours are 0 for y before d, 24 × first-year days for y = d, and 24 × days of y after": d is the start year.
fn hours(y: usize, d: usize, first: u64, days: u64) -> u64
    requires { (first ≤ long_year) × (days ≤ long_year) }
    ensures { (result ≡ hours_of y d first days) × (result ≤ day_hours * long_year) }
{
    if y < d {
        0
    } else if y == d {
        names::DAY_HOURS * first
    } else {
        names::DAY_HOURS * days
    }
}

impl Factors {
    // Of a bid of technology t in year y.
    pub fn of(round: &RoundFile, t: usize, bid: Bid, y: usize) -> Self
        requires held { (t < round.now.sections.technologies) × (y < round.now.sections.years) }
        requires days_le_long_year { (bid.days ≤ long_year) × (bid.capacity ≤ largest_capacity) }
        ensures { FactorsOf (round_in round.now.file.now round.now.sections) t (bid_shown bid) y result × InScale result }
    {
        let year_recs = parts::years(round.file, round.sections);
        let technologies = parts::technologies(round.file, round.sections);
        Self {
            reference: technologies.reference(t, y),
            load: technologies.load(t, y),
            hours: hours(y, bid.year, bid.days, year::days(year_recs, y)),
            capacity: bid.capacity,
            kept: names::WHOLE - year::tlm(year_recs, y),
            rqm: technologies.rqm(t),
        }
    }

    // Load factor × hours × capacity.
    pub fn energy(self) -> u64
        requires { InScale self }
        ensures { (result ≡ self.load * (self.hours * self.capacity)) × (result ≤ most_energy) }
    {
        self.load * (self.hours * self.capacity)
    }

    // (1 − TLM) × RQM.
    pub fn share(self) -> u64
        requires { InScale self }
        ensures { (result ≡ self.kept * self.rqm) × (result ≤ most_share) }
    {
        self.kept * self.rqm
    }
}
