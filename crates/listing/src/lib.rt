// The listing of a round, and of a refusal, over the start of a lent buffer.
#![tactic(auto)]

ghost use Rattle.std.specs.Prelude.{◌≡◌, ℕ, ◌+◌, ◌*◌, ◌≤◌, ◌<◌, List, length};
ghost use Rattle.rules.specs.Names.{most_years};
ghost use Rattle.rules.specs.Bytes.{each, onto};
ghost use Rattle.rules.specs.File.{Round};
ghost use Rattle.rules.specs.Listing.{round_lines, refusal_line};
ghost use Rattle.result.specs.Tells.{InRange, Counted, Tells};
ghost use Rattle.lines.specs.Printed.{Printed};
ghost use Rattle.listing.specs.InTurn.{TakesLines, ShortLines, Prints};
ghost use Rattle.listing.specs.ToldLines.{longest_year, longest_app, longest_bid, longest_refusal, longest_pot, longest};
ghost use Rattle.listing.specs.ToldLines.{price_told, year_line_told, pot_lines_told, pot_listed, app_line_told, bid_line_told, lines_told};

use names::{MOST_APPS, MOST_BIDS, MOST_POTS, NO_PRICE, YEARS};
use result::{Counts, PotTold, Tellings};
use rules::Sections;

// The most bytes of a line: of a pot, a year, an application, a bid.
const LONGEST_POT_LINE: usize = 40;

const LONGEST_YEAR: usize = 80;

const LONGEST_APP: usize = 83;

const LONGEST_BID: usize = 53;

// Of a pot with its years, and of a listing.
const LONGEST_POT: usize = LONGEST_POT_LINE + LONGEST_YEAR * YEARS;

pub const LONGEST: usize = LONGEST_POT * MOST_POTS as usize
    + LONGEST_APP * MOST_APPS as usize
    + LONGEST_BID * MOST_BIDS as usize;

// Room for a listing.
pub fn blank() -> [u8; LONGEST]
    ensures { longest ≡ length result }
{
    [0; LONGEST]
}

// The clearing price of year y in a pot: a valuation-only year has none.
#[tactic(auto, unfolding(crate::specs::ToldLines::price_told))]
fn price_in(told: &PotTold, counts: Counts, y: usize) -> u64
    ensures { result ≡ price_told counts.sections told.now y }
{
    if y < counts.sections.deliveries {
        told.prices[y]
    } else {
        NO_PRICE
    }
}

// The line of year y in a pot.
#[tactic(auto, unfolding(crate::specs::ToldLines::year_line_told))]
fn year_line(s: &mut [u8], told: &PotTold, counts: Counts, y: usize) -> usize
    requires known { y < most_years }
    requires room { longest_year ≤ length s.old }
    ensures { Printed (year_line_told counts.sections told.now y) longest_year s.old s.new result }
{
    let price = price_in(told, counts, y);
    let total = told.totals[y];
    lines::year_line(s, y as u64, price, total)
}

// n texts one after the other: `line` puts text i over the start of the part that it is lent, which is as long as the longest, and answers its length.
fn in_turn<F: Fn(usize, &mut [u8]) -> usize>(
    s: &mut [u8],
    longest: usize,
    n: usize,
    line: F,
) -> usize
    requires takes { TakesLines F.Fn line longest n }
    requires short { ShortLines F.Fn line longest n }
    requires room { longest * n ≤ length s.old }
    ensures { (f : ℕ → List ℕ) → Prints F.Fn line longest n f → Printed (each f n) (longest * n) s.old s.new result }
{
    let mut at = 0;
    for i in 0..n {
        at += line(i, &mut s[at..at + longest]);
    }
    at
}

// The lines of the years in a pot.
fn year_lines(s: &mut [u8], told: &PotTold, counts: Counts) -> usize
    requires { longest_year * counts.sections.years ≤ length s.old }
    ensures { Printed (each (year_line_told counts.sections told.now) counts.sections.years) (longest_year * counts.sections.years) s.old s.new result }
{
    in_turn(
        s,
        LONGEST_YEAR,
        counts.sections.years,
        |y, part| year_line(part, told, counts, y),
    )
}

// The line of pot p, then those of its years.
fn pot_lines(s: &mut [u8], told: &PotTold, counts: Counts, p: usize) -> usize
    requires { longest_pot ≤ length s.old }
    ensures { Printed (pot_lines_told counts.sections told.now p) longest_pot s.old s.new result }
{
    let at = lines::pot_line(s, p as u64, told.outcome);
    at + year_lines(&mut s[at..], told, counts)
}

// The lines of the pots, of the applications, and of the bids.
fn pots(s: &mut [u8], t: &Tellings, counts: Counts) -> usize
    requires { longest_pot * counts.sections.pots ≤ length s.old }
    ensures { Printed (each (pot_listed t.now counts.sections) counts.sections.pots) (longest_pot * counts.sections.pots) s.old s.new result }
{
    in_turn(
        s,
        LONGEST_POT,
        counts.sections.pots,
        |p, part| pot_lines(part, &t.pots[p], counts, p),
    )
}

fn applications(s: &mut [u8], t: &Tellings, counts: Counts) -> usize
    requires { longest_app * counts.sections.applications ≤ length s.old }
    ensures { Printed (each (app_line_told t.now) counts.sections.applications) (longest_app * counts.sections.applications) s.old s.new result }
{
    in_turn(s, LONGEST_APP, counts.sections.applications, |a, part| {
        let told = t.apps[a];
        lines::application_line(part, a as u64, told.won, told.paid, told.bid)
    })
}

fn bids(s: &mut [u8], t: &Tellings, counts: Counts) -> usize
    requires { longest_bid * counts.sections.bids ≤ length s.old }
    ensures { Printed (each (bid_line_told t.now) counts.sections.bids) (longest_bid * counts.sections.bids) s.old s.new result }
{
    in_turn(
        s,
        LONGEST_BID,
        counts.sections.bids,
        |k, part| lines::bid_line(part, k as u64, t.reasons[k]),
    )
}

// The listing of a round; its length.
pub fn write(t: Tellings, sections: Sections, text: &mut [u8]) -> usize
    requires ready { InRange sections }
    requires room { longest ≤ length text.old }
    ensures told { Printed (lines_told t sections) longest text.old text.new result }
    ensures meant { (R : Round) → Counted R sections → Tells R t
        → (result ≡ length (round_lines R)) × (text.new ≡ onto (round_lines R) text.old) }
{
    let counts = Counts { sections };
    let first = pots(text, &t, counts);
    let second = first + applications(&mut text[first..], &t, counts);
    second + bids(&mut text[second..], &t, counts)
}

// The listing of a refusal; its length.
pub fn refused(number: u64, at: usize, text: &mut [u8]) -> usize
    requires { longest_refusal ≤ length text.old }
    ensures { Printed (refusal_line number at) longest_refusal text.old text.new result }
{
    lines::refusal_line(text, number, at as u64)
}
