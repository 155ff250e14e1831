// What stands in the sheet of a pot for one bid: its row, and its figures in each year; and for one application at its administrative price. Each number is
// read from the sections of an accepted file.
#![tactic(auto)]

pub mod factors;

ghost use Rattle.std.specs.Prelude.{◌≡◌, ℕ, ◌≤◌, ◌<◌, slice_index};
ghost use Rattle.rules.specs.Names.{long_year, largest_capacity};
ghost use Rattle.rules.specs.File.{tech_at, app_at, bid_at};
ghost use Rattle.rules.specs.Round.{at_admin_price, mine, app_mine};
ghost use Rattle.layout.specs.Layout.{application_shown, bid_shown};
ghost use Rattle.std.proofs.Props.{props};
ghost use Rattle.rows.specs.Once.{gained_once};
ghost use Rattle.rows.specs.Rows.{round_in, Held, row_numbers, figures_in};

use factors::Factors;
use layout::application::Application;
use layout::bid::Bid;
use layout::{application, bid, parts};
use rules::Sections;

// An accepted file, and where its sections stand in it.
#[derive(Clone, Copy)]
pub struct RoundFile<'a> {
    pub file: &'a [u8],
    pub sections: Sections,
    ghost held: { Held file.now sections } by { Prim.hlevel (gained_once, props) },
    ghost bytes: { (i : ℕ) → slice_index file.now i < 256 },
}

impl RoundFile<'_> {
    // ---- applications and technologies

    // Application a.
    pub fn application(&self, a: usize) -> Application
        requires { a < self.now.sections.applications }
        ensures { application_shown result ≡ app_at (round_in self.now.file.now self.now.sections).apps a }
    {
        application::read(parts::applications(self.file, self.sections), a)
    }

    // The pot of technology t.
    fn pot(&self, t: usize) -> usize
        requires { t < self.now.sections.technologies }
        ensures { result ≡ (tech_at self.now.sections.years (round_in self.now.file.now self.now.sections).techs t).pot }
    {
        parts::technologies(self.file, self.sections).pot(t)
    }

    // The administrative price of technology t in year y.
    fn admin(&self, t: usize, y: usize) -> u64
        requires { (t < self.now.sections.technologies) × (y < self.now.sections.years) }
        ensures { result ≡ (tech_at self.now.sections.years (round_in self.now.file.now self.now.sections).techs t).admin y }
    {
        parts::technologies(self.file, self.sections).admin(t, y)
    }

    // Application a at its administrative price: its own capacity, year and days.
    pub fn at_admin_price(&self, a: usize) -> Bid
        requires { a < self.now.sections.applications }
        ensures { bid_shown result ≡ at_admin_price (round_in self.now.file.now self.now.sections) a }
    {
        let own = self.application(a);
        Bid {
            application: a,
            year: own.year,
            days: own.days,
            capacity: own.capacity,
            price: self.admin(own.technology, own.year),
        }
    }

    // Does application a stand in pot p?
    pub fn app_mine(&self, p: usize, a: usize) -> bool
        ensures { result ≡ app_mine (round_in self.now.file.now self.now.sections) p a }
    {
        a < self.sections.applications && self.pot(self.application(a).technology) == p
    }

    // ---- bids

    // Bid k.
    pub fn bid(&self, k: usize) -> Bid
        requires { k < self.now.sections.bids }
        ensures { bid_shown result ≡ bid_at (round_in self.now.file.now self.now.sections).bids k }
    {
        bid::read(parts::bids(self.file, self.sections), k)
    }

    // Does bid k stand in pot p?
    fn mine(&self, p: usize, k: usize) -> bool
        ensures { result ≡ mine (round_in self.now.file.now self.now.sections) p k }
    {
        k < self.sections.bids && self.app_mine(p, self.bid(k).application)
    }

    // ---- the numbers of the sheet

    // The row of bid k, zeros if it stands in another pot: standing, application, start year, price, draw of the application, administrative price.
    pub fn row(&self, p: usize, k: usize) -> [u64; sheet::ROW]
        ensures { result ≡ row_numbers (round_in self.now.file.now self.now.sections) p k }
    {
        if self.mine(p, k) {
            let bid = self.bid(k);
            let its = self.application(bid.application);
            let admin = self.admin(its.technology, bid.year);
            [
                sheet::ENTERED,
                bid.application as u64,
                bid.year as u64,
                bid.price,
                its.draw,
                admin,
            ]
        } else {
            [sheet::ABSENT, 0, 0, 0, 0, 0]
        }
    }

    // The figures in year y of a bid of technology t: reference price, load factor × hours × capacity, (1 − TLM) × RQM.
    pub fn figure(&self, t: usize, bid: Bid, y: usize) -> [u64; sheet::FIGURE]
        requires held { (t < self.now.sections.technologies) × (y < self.now.sections.years) }
        requires days_le_long_year { (bid.days ≤ long_year) × (bid.capacity ≤ largest_capacity) }
        ensures { result ≡ figures_in (round_in self.now.file.now self.now.sections) t (bid_shown bid) y }
    {
        let of = Factors::of(self, t, bid, y);
        [of.reference, of.energy(), of.share()]
    }
}
