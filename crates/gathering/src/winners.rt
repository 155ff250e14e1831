// What the present winners count where some delivery years have the price of the tie: a row of columns for each set of these.
ghost use Rattle.std.specs.Prelude.{◌≡◌};
ghost use Rattle.rules.specs.Names.{most_deliveries};
ghost use Rattle.combinations.specs.Combinations.{repriced_to, bases_of};

use combinations::places::{SETS, member};
use combinations::tables::Base;
use names::{BIDS, MOST_DELIVERIES};
use sheet::{COLUMNS, Sheet};

// The clearing prices of a trial: one price in each delivery year of the set t.
fn repriced(mut prices: [u64; MOST_DELIVERIES], price: u64, t: u32) -> [u64; MOST_DELIVERIES]
    ensures { result ≡ repriced_to prices price t most_deliveries }
{
    for d in 0..MOST_DELIVERIES {
        if member(t, d as u32) {
            prices[d] = price;
        }
    }
    prices
}

// What the present winners count, a row of columns for each set of delivery years that has the price.
pub fn bases(sheet: &Sheet, marks: [u16; BIDS], prices: [u64; MOST_DELIVERIES], price: u64) -> Base
    ensures { result ≡ bases_of sheet.now.cells.now sheet.now.size marks prices price }
{
    let mut base = [0u64; SETS * COLUMNS];
    for t in 0..SETS {
        let trial = repriced(prices, price, t as u32);
        let row = totals::revalued(sheet, marks, trial);
        arrays::lay(&mut base, &row, t * COLUMNS);
    }
    base
}
