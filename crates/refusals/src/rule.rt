// The rules of "When the file is turned away", in words.
use super::broken;
use rules::{Refusal, Rule};

// Rule 2, where nothing is added without what goes before it.
const COUNT_OUTSIDE: &str =
    "count outside its range (years 1 to 8, pots 1 to 4 or, with caps, 32,769 to 32,772 or, with caps and drawn numbers, 49,153 to 49,156, technologies 1 to 32, applications 0 to 64, bids 0 to 256)";

const YEAR_BROKEN: &str =
    "days not 365 or 366, kind above 1, TLM above 1.0000, year 0 not a delivery year, a delivery year after a valuation-only one, or a fifth delivery year";

const TECH_BROKEN: &str =
    "pot not in the file, RQM or load factor above 1.0000, reference price above 500, or administrative price not whole pence from 0.01 to 500 in a delivery year, or not 0 in another";

const APP_BROKEN: &str =
    "technology not in the file, year not a delivery year, days 0 or above that year's, capacity 0 or above 3,000 MW, or draw used by an earlier application";

const BID_BROKEN: &str =
    "application not in the file, year not a delivery year, days 0 or above that year's, capacity 0 or above the application's, start earlier than the application's, or price above the administrative price of its technology and year";

// The rule that is broken. Of a pot, if its budgets are right, it is the cap that is not, as every drawn number is right.
pub fn words(file: &[u8], refusal: Refusal) -> &'static str {
    let at = refusal.at;
    match refusal.rule {
        Rule::EndsEarly => "the file ends before the end of this count or record",
        Rule::CountOutside if broken::drawn_without_caps(file, at) =>
            "16,384 added without 32,768 (drawn numbers without caps)",
        Rule::CountOutside => COUNT_OUTSIDE,
        Rule::YearBroken => YEAR_BROKEN,
        Rule::PotBroken if broken::budget_high(file, at) => "a budget above £1,000,000,000,000",
        Rule::PotBroken => "a cap above 200,000 MW",
        Rule::TechBroken => TECH_BROKEN,
        Rule::AppBroken => APP_BROKEN,
        Rule::BidBroken => BID_BROKEN,
        Rule::PriceTwice => "price of an earlier bid of the same application",
        Rule::BidsTooMany => "eleventh bid of its application, or its fourth in one year",
        Rule::BytesAfter => "bytes after the last record",
        Rule::LowestUneven => "the lowest bid of its application in its year is not in whole pence",
        Rule::ResultShort => "the lent result is too short",
    }
}
