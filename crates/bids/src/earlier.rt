// Rules 8 and 9: a bid beside the earlier bids of its application, which are chained from the latest to the first so that no other bid is
// looked at. A link is how many bids of the file there are up to the one that it leads to: `latest` has one for each application, `previous`
// one for each bid. A number that has no place in them leads to the bid just before, and no bid is passed over.
ghost use Rattle.std.specs.Prelude.{◌≡◌, ◌+◌, ◌<◌, get_or, set, true, false};
ghost use Rattle.std.proofs.Math.Decide.{dec_lt};
ghost use Rattle.rules.specs.Names.{bid_width, bids_each, bids_a_year, bids_too_many};
ghost use Rattle.rules.specs.File.{bid_at};
ghost use Rattle.rules.specs.Lists.{given, both};
ghost use Rattle.rules.specs.Reading.{fault_in};
ghost use Rattle.rules.specs.Refusals.{or_fault, eight_of, nine_of, same_app?, same_year?};
ghost use Rattle.layout.specs.Layout.{Room};
ghost use Rattle.bids.specs.Bids.{alone, same_price?, Free, Latest, Previous};

use layout::bid;
use rules::Rule;

// ---- the chains

// The link at place k, or `none` where there is no such place.
fn link(links: &[usize], k: usize, none: usize) -> usize
    ensures { result ≡ get_or links.now k none }
{
    links.get(k).copied().unwrap_or(none)
}

// Place k, where there is one, holds a link r.
fn put(links: &mut [usize], k: usize, r: usize)
    ensures { links.new ≡ set links.old k r }
{
    if k < links.len() {
        links[k] = r;
    }
}

// The bids from the answer to bid i are not of its application.
fn start(recs: &[u8], latest: &[usize], i: usize) -> usize
    requires { Room recs.now bid_width i × Latest recs.now latest.now i }
    ensures { Free recs.now (bid_at recs.now i).app result i }
{
    link(latest, bid::application(recs, i), i)
}

// The bids from the answer to bid k are not of the application of bid i, which is a later one.
fn next(recs: &[u8], previous: &[usize], k: usize, i: usize) -> usize
    requires { (k < i) × Room recs.now bid_width i × Previous recs.now previous.now i }
    ensures { Free recs.now (bid_at recs.now i).app result k }
{
    if bid::application(recs, k) == bid::application(recs, i) {
        link(previous, k, k)
    } else {
        k
    }
}

// Bid i is accepted: it is the latest of its application.
pub fn accept(recs: &[u8], latest: &mut [usize], previous: &mut [usize], i: usize)
    requires room { Room recs.now bid_width i }
    requires latest { Latest recs.now latest.old i × Previous recs.now previous.old i }
    ensures { Latest recs.now latest.new (i + 1) × Previous recs.now previous.new (i + 1) }
{
    put(previous, i, start(recs, latest, i));
    put(latest, bid::application(recs, i), i + 1);
}

// ---- the rules

// Are bids k and i of one application?
fn same_app(recs: &[u8], k: usize, i: usize) -> bool
    requires { Room recs.now bid_width k × Room recs.now bid_width i }
    ensures { result ≡ given (same_app? (alone recs.now i) k i) true false }
{
    bid::application(recs, k) == bid::application(recs, i)
}

// Are they in one year, too?
pub fn same_year(recs: &[u8], k: usize, i: usize) -> bool
    requires { Room recs.now bid_width k × Room recs.now bid_width i }
    ensures { result ≡ given (same_year? (alone recs.now i) k i) true false }
{
    same_app(recs, k, i) && bid::year(recs, k) == bid::year(recs, i)
}

// Are they at one price, too?
fn same_price(recs: &[u8], k: usize, i: usize) -> bool
    requires { Room recs.now bid_width k × Room recs.now bid_width i }
    ensures { result ≡ given (same_price? recs.now k i) true false }
{
    same_app(recs, k, i) && bid::price(recs, k) == bid::price(recs, i)
}

// Rule 9 of a bid beside so many earlier ones of its application, and of those so many in its year.
fn nine(of_app: usize, of_year: usize) -> Result<(), Rule>
    ensures { fault_in result ≡ given (both (dec_lt of_app bids_each) (dec_lt of_year bids_a_year)) 0 bids_too_many }
{
    if names::BIDS_EACH <= of_app || names::BIDS_A_YEAR <= of_year {
        return Err(Rule::BidsTooMany);
    }
    Ok(())
}

// Rules 8 and 9 of bid i.
pub fn eight_nine(recs: &[u8], latest: &[usize], previous: &[usize], i: usize) -> Result<(), Rule>
    requires room { Room recs.now bid_width i }
    requires latest { Latest recs.now latest.now i × Previous recs.now previous.now i }
    ensures { fault_in result ≡ or_fault (eight_of (alone recs.now i) i) (nine_of (alone recs.now i) i) }
{
    let mut left = start(recs, latest, i);
    let mut of_app: usize = 0;
    let mut of_year: usize = 0;
    // from link to link
    while 0 < left {
        let k = left - 1;
        if same_price(recs, k, i) {
            return Err(Rule::PriceTwice);
        }
        of_app += usize::from(same_app(recs, k, i));
        of_year += usize::from(same_year(recs, k, i));
        left = next(recs, previous, k, i);
    }
    nine(of_app, of_year)
}
