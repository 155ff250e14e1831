// Rule 7: a bid beside its year, its application and its technology.
ghost use Rattle.std.specs.Prelude.{◌≡◌, ◌<◌};
ghost use Rattle.rules.specs.Names.{bid_width};
ghost use Rattle.rules.specs.Reading.{fault_in};
ghost use Rattle.rules.specs.Refusals.{seven_of};
ghost use Rattle.layout.specs.Layout.{Room, application_shown, bid_shown};
ghost use Rattle.bids.specs.Bids.{judge_of, held_of, tables_of, TablesRight};

use layout::application::Application;
use layout::bid::Bid;
use layout::{application, bid, parts, year};
use rules::{Rule, Sections};

// Rule 7 of a bid beside its application, the days of its year and the administrative price.
fn judge(bid: Bid, its: Application, most_days: u64, admin: u64) -> Result<(), Rule>
    ensures { fault_in result ≡ judge_of (bid_shown bid) (application_shown its) most_days admin }
{
    if bid.days == 0 || most_days < bid.days {
        return Err(Rule::BidBroken);
    }
    if bid.capacity == 0 || its.capacity < bid.capacity {
        return Err(Rule::BidBroken);
    }
    if bid.year < its.year || admin < bid.price {
        return Err(Rule::BidBroken);
    }
    if bid.year == its.year && its.days < bid.days {
        return Err(Rule::BidBroken);
    }
    Ok(())
}

// Rule 7 of a bid that is of an application of the file and in a delivery year.
fn held(file: &[u8], done: Sections, bid: Bid) -> Result<(), Rule>
    requires { TablesRight file.now done × (bid.application < done.applications) × (bid.year < done.deliveries) }
    ensures { fault_in result ≡ held_of file.now done (bid_shown bid) }
{
    let its = application::read(parts::applications(file, done), bid.application);
    let most_days = year::days(parts::years(file, done), bid.year);
    let technologies = parts::technologies(file, done);
    let admin = technologies.admin(its.technology, bid.year);
    judge(bid, its, most_days, admin)
}

// Rule 7 of bid i.
pub fn seven(file: &[u8], recs: &[u8], done: Sections, i: usize) -> Result<(), Rule>
    requires { TablesRight file.now done × Room recs.now bid_width i }
    ensures { fault_in result ≡ seven_of (tables_of file.now recs.now done) i }
{
    let bid = bid::read(recs, i);
    if done.applications <= bid.application || done.deliveries <= bid.year {
        return Err(Rule::BidBroken);
    }
    held(file, done, bid)
}
