// The bids' records: refusals 1, 7, 8 and 9 of each in file order; and 11, once the file has ended well.
#![tactic(auto)]

ghost use Rattle.std.specs.Prelude.{◌≡◌, ◌+◌, ◌*◌, ◌≤◌, ◌<◌, ◌^◌, length};
ghost use Rattle.rules.specs.Names.{bid_width};
ghost use Rattle.rules.specs.Reading.{fault_in, reading_in};
ghost use Rattle.rules.specs.Refusals.{record_fault, bid_fault};
ghost use Rattle.bids.specs.Bids.{tables_of, TablesRight, bids_of, Latest, Previous};

mod earlier;
pub mod lowest;
mod seven;

use rules::{Refusal, Rule, Sections};

// What is wrong with bid i. "For bids 7, then 8, then 9".
fn bid_fault(
    file: &[u8],
    recs: &[u8],
    done: Sections,
    latest: &[usize],
    previous: &[usize],
    i: usize,
) -> Result<(), Rule>
    requires tables_right { TablesRight file.now done }
    requires bid_width_in_bounds { (i * bid_width ≤ length recs.now) × Latest recs.now latest.now i × Previous recs.now previous.now i }
    ensures { fault_in result ≡ record_fault recs.now bid_width (bid_fault (tables_of file.now recs.now done)) i }
{
    if recs.len() - i * names::BID_WIDTH < names::BID_WIDTH {
        return Err(Rule::EndsEarly);
    }
    seven::seven(file, recs, done, i).and(earlier::eight_nine(recs, latest, previous, i))
}

// The bids' records, where no bid is chained yet.
fn judged(
    file: &[u8],
    recs: &[u8],
    base: usize,
    done: Sections,
    latest: &mut [usize],
    previous: &mut [usize],
) -> Result<Sections, Refusal>
    requires tables_right { TablesRight file.now done }
    requires recs_bound { (base + length recs.now < 2 ^ 63) × Latest recs.now latest.old 0 × Previous recs.now previous.old 0 }
    ensures { reading_in result ≡ bids_of file.now recs.now base done }
{
    for i in 0..done.bids {
        if let Err(rule) = bid_fault(file, recs, done, latest, previous, i) {
            return Err(Refusal {
                rule,
                at: base + i * names::BID_WIDTH,
            });
        }
        earlier::accept(recs, latest, previous, i);
    }
    Ok(done)
}

// The bids' records, in the part of the file that they occupy and that starts at `base`. They are held to the sections before them, which
// stand in the file where `done` says. If nothing is wrong, `done` is the answer.
pub fn bids(file: &[u8], recs: &[u8], base: usize, done: Sections) -> Result<Sections, Refusal>
    requires { TablesRight file.now done × (base + length recs.now < 2 ^ 63) }
    ensures { reading_in result ≡ bids_of file.now recs.now base done }
{
    let mut latest = [0; names::APPS];
    let mut previous = [0; names::BIDS];
    judged(file, recs, base, done, &mut latest, &mut previous)
}
