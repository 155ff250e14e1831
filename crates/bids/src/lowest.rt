// Rule 11: the lowest bid of an application in a year is a multiple of 10.
ghost use Rattle.std.specs.Prelude.{true, false, ◌≡◌, ◌+◌, ◌*◌, ◌≤◌, ◌<◌, ◌^◌, length};
ghost use Rattle.std.proofs.Math.Decide.{dec_lt};
ghost use Rattle.rules.specs.Names.{bid_width};
ghost use Rattle.rules.specs.File.{bid_at};
ghost use Rattle.rules.specs.Lists.{given, both};
ghost use Rattle.rules.specs.Reading.{fault_in, reading_in};
ghost use Rattle.rules.specs.Refusals.{same_year?, eleven_of};
ghost use Rattle.layout.specs.Layout.{Room};
ghost use Rattle.bids.specs.Bids.{alone, lowest_of};

use super::earlier::same_year;
use layout::bid;
use rules::{Refusal, Rule, Sections};

// Is bid k of bid i's application, in its year, and lower than that price?
fn lower(recs: &[u8], k: usize, i: usize, price: u64) -> bool
    requires { Room recs.now bid_width k × Room recs.now bid_width i }
    ensures { result ≡ given (both (same_year? (alone recs.now i) k i) (dec_lt (bid_at recs.now k).price price)) true false }
{
    same_year(recs, k, i) && bid::price(recs, k) < price
}

// Rule 11 of bid i, of n: its price is a multiple of 10, or a bid of its application in its year is lower.
fn eleven(recs: &[u8], n: usize, i: usize) -> Result<(), Rule>
    requires { (n * bid_width ≤ length recs.now) × (i < n) }
    ensures { fault_in result ≡ eleven_of (alone recs.now n) i }
{
    let price = bid::price(recs, i);
    if price % names::PRICE_STEP == 0 {
        return Ok(());
    }
    if (0..n).any(|k| lower(recs, k, i, price)) {
        return Ok(());
    }
    Err(Rule::LowestUneven)
}

// Rule 11 of the bids' records, in file order.
pub fn lowest(recs: &[u8], base: usize, done: Sections) -> Result<Sections, Refusal>
    requires { (done.bids * bid_width ≤ length recs.now) × (base + length recs.now < 2 ^ 63) }
    ensures { reading_in result ≡ lowest_of recs.now base done }
{
    for i in 0..done.bids {
        if let Err(rule) = eleven(recs, done.bids, i) {
            return Err(Refusal {
                rule,
                at: base + i * names::BID_WIDTH,
            });
        }
    }
    Ok(done)
}
