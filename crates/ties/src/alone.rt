// "Drop those that do not fit alone".
ghost use Rattle.std.specs.Prelude.{◌≡◌};
ghost use Rattle.arrays.specs.Sets.{built};
ghost use Rattle.totals.specs.Totals.{Asked};
ghost use Rattle.combinations.specs.Combinations.{Bounded, most_base};
ghost use Rattle.ties.specs.Ties.{Based, Trying, alone_total, alone_fits, keeps_of};

use combinations::places::power;
use combinations::tables::Base;
use names::BIDS;
use sheet::{COLUMNS, Sheet};

// The total in column c where bid k alone is added to the winners.
fn alone_total(sheet: &Sheet, base: &Base, price: u64, k: usize, c: usize) -> u64
    requires { Asked sheet.now.cells.now sheet.now.size k c × Bounded base.now most_base }
    ensures { result ≡ alone_total sheet.now.cells.now sheet.now.size base.now price k c }
{
    let t = power(sheet::year(sheet.cells, k) as u32) as usize;
    base[t * COLUMNS + c] + totals::worth(sheet, k, price, c)
}

// Does bid k fit alone?
fn fits_alone(sheet: &Sheet, base: &Base, price: u64, k: usize) -> bool
    requires { Trying sheet.now.cells.now sheet.now.size base.now k }
    ensures { result ≡ alone_fits sheet.now.cells.now sheet.now.size base.now price k }
{
    (0..sheet.size.columns).all(|c| alone_total(sheet, base, price, k, c)
        <= sheet::limit(sheet.cells, c))
}

// Those of a set that fit alone.
pub fn rest(sheet: &Sheet, base: &Base, set: [bool; BIDS], price: u64) -> [bool; BIDS]
    requires { Based sheet.now.cells.now sheet.now.size base.now }
    ensures { result ≡ built (keeps_of sheet.now.cells.now sheet.now.size base.now price set) sheet.now.size.bids }
{
    let mut out = [false; BIDS];
    for k in 0..sheet.size.bids {
        out[k] = set[k] && fits_alone(sheet, base, price, k);
    }
    out
}
