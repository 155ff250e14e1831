// Money, in whole pence: a budget, and the value of one bid in one year, as a bookkeeper works it by pencil: the whole product, 10^15 parts to
// the penny, and below it a line for each scale, which divides the line above and rounds up. That this rounds the exact cost up once is
// `Scales.lined`.
#![tactic(auto)]

pub mod wide;

ghost use Rattle.std.specs.Prelude.{◌≡◌, ◌-◌, ◌*◌, ◌≤◌, min};
ghost use Rattle.rules.specs.Names.{pence_per_pound, highest_budget, highest_price};
ghost use Rattle.rules.specs.Value.{ceil_div, penny, dearest};
ghost use Rattle.value.specs.Ranges.{InRange};
ghost use Rattle.value.specs.Lines.{LineByLine};

use wide::Wide;

// "factors taken at their scales": so many units make a penny a MWh, a MW, one.
pub const PRICE_SCALE: u64 = 10;

pub const LOAD_SCALE: u64 = 10000;

pub const CAPACITY_SCALE: u64 = 100;

pub const TLM_SCALE: u64 = 10000;

pub const RQM_SCALE: u64 = 10000;

// A valuation line by line: price less reference, the product, and a line for each scale, of which the last is the value. From the fourth the
// numbers fit one column.
#[derive(Clone, Copy)]
pub struct Valuation {
    pub margin: u64,
    pub product: Wide,
    pub by_price: Wide,
    pub by_load: Wide,
    pub by_capacity: Wide,
    pub by_tlm: u64,
    pub by_rqm: u64,
}

// "Budgets in the file stay in pounds and are compared a hundredfold": a budget in pence.
pub fn pence(budget: u64) -> u64
    requires { budget ≤ highest_budget }
    ensures { result ≡ pence_per_pound * budget }
{
    names::PENCE_PER_POUND * budget
}

// Price less reference, which may fall below zero; it then counts as zero.
pub fn margin(price: u64, reference: u64) -> u64
    requires { (price ≤ highest_price) × (reference ≤ highest_price) }
    ensures { result ≡ price - reference }
{
    let d = price as i64 - reference as i64;
    if d < 0 { 0 } else { d as u64 }
}

// The clearing price, capped at the administrative price.
pub fn capped(price: u64, admin: u64) -> u64
    ensures { result ≡ min price admin }
{
    price.min(admin)
}

impl Valuation {
    // Of a bid in a year, where energy is load factor × hours × capacity and share is (1 − TLM) × RQM.
    pub fn of(price: u64, reference: u64, energy: u64, share: u64) -> Self
        requires { InRange price reference energy share }
        ensures { LineByLine price reference energy share result }
    {
        let margin = margin(price, reference);
        let product = Wide::product(margin * energy, share);
        let by_price = product.over(PRICE_SCALE);
        let by_load = by_price.over(LOAD_SCALE);
        let by_capacity = by_load.over(CAPACITY_SCALE);
        let by_tlm = by_capacity.over(TLM_SCALE).number();
        let by_rqm = wide::over(by_tlm, RQM_SCALE);
        Self {
            margin,
            product,
            by_price,
            by_load,
            by_capacity,
            by_tlm,
            by_rqm,
        }
    }
}

// The value of a bid in a year: the last line.
pub fn value(price: u64, reference: u64, energy: u64, share: u64) -> u64
    requires { InRange price reference energy share }
    ensures { (result ≡ ceil_div ((price - reference) * energy * share) penny) × (result ≤ dearest) }
{
    Valuation::of(price, reference, energy, share).by_rqm
}
