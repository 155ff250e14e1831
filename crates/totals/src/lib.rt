// What bids and applications count in the columns of a pot: in each year their value, and their capacity in a column after the years, where the pot has a cap;
// the totals of the bids that have won, whether these fit, and the totals of the first test. specs/Totals.antt says what each function computes.
#![tactic(auto)]

ghost use Rattle.std.specs.Prelude.{◌≡◌, ◌≤◌, ◌<◌};
ghost use Rattle.rules.specs.Value.{dearest};
ghost use Rattle.sheet.specs.Sheet.{columns};
ghost use Rattle.totals.specs.Totals.{counts, Struck, Asked, Worth, Adding, worth_of, total_of, part_of, filled, added_to, row_fits, admin_total_of};

pub mod marks;
pub mod sums;

use marks::WON;
use names::BIDS;
use sheet::{COLUMNS, Cells, Sheet, Size};

// What column c counts, at a strike price, of what has its figures at place k, a bid or an application: its value in a year, after the years its capacity.
fn valued(sheet: &Sheet, k: usize, strike: u64, c: usize) -> u64
    requires { Struck sheet.now.cells.now sheet.now.size k strike c }
    ensures { (result ≡ counts sheet.now.cells.now sheet.now.size k strike c) × (result ≤ dearest) }
{
    if c >= sheet.size.years {
        return sheet::capacity(sheet.cells, k);
    }
    let reference = sheet::reference(sheet.cells, k, c);
    let energy = sheet::energy(sheet.cells, k, c);
    value::value(strike, reference, energy, sheet::share(sheet.cells, k, c))
}

// What column c counts of bid k at a clearing price.
pub fn worth(sheet: &Sheet, k: usize, price: u64, c: usize) -> u64
    requires { Asked sheet.now.cells.now sheet.now.size k c }
    ensures { Worth sheet.now.cells.now sheet.now.size k price c result }
{
    let strike = value::capped(price, sheet::admin(sheet.cells, k));
    valued(sheet, k, strike, c)
}

// Adds what bid k counts at a price to a row of totals, in each column.
fn add(sheet: &Sheet, k: usize, price: u64, row: &mut [u64; COLUMNS])
    requires { Adding sheet.now.cells.now sheet.now.size row.old k }
    ensures { row.new ≡ added_to (λ c. worth_of sheet.now.cells.now sheet.now.size k price c) row.old sheet.now.size.columns }
{
    for c in 0..sheet.size.columns {
        row[c] += worth(sheet, k, price, c);
    }
}

// Every winner revalued: the row of totals.
pub fn revalued(
    sheet: &Sheet,
    marks: [u16; BIDS],
    prices: [u64; names::MOST_DELIVERIES],
) -> [u64; COLUMNS]
    ensures { result ≡ filled (λ c. total_of sheet.now.cells.now sheet.now.size marks prices c sheet.now.size.bids) sheet.now.size.columns }
{
    let mut row = [0u64; COLUMNS];
    for k in 0..sheet.size.bids {
        if marks[k] == WON {
            add(sheet, k, prices[sheet::year(sheet.cells, k)], &mut row);
        }
    }
    row
}

// Of the pot's bids the winners that start in year d, all at one price: their row of totals.
pub fn part(sheet: &Sheet, marks: [u16; BIDS], price: u64, d: usize) -> [u64; COLUMNS]
    ensures { result ≡ filled (λ c. part_of sheet.now.cells.now sheet.now.size marks price d c sheet.now.size.bids) sheet.now.size.columns }
{
    let mut row = [0u64; COLUMNS];
    for j in 0..sheet.size.entered {
        let k = sheet::entrant(sheet.cells, j);
        // The year is read of winners alone.
        if marks[k] == WON && sheet::year(sheet.cells, k) == d {
            add(sheet, k, price, &mut row);
        }
    }
    row
}

// Is no column's total above its limit? Equal fits.
pub fn within(cells: &Cells, of: Size, row: [u64; COLUMNS]) -> bool
    requires { of.columns ≤ columns }
    ensures { result ≡ row_fits cells.now row of.columns }
{
    (0..of.columns).all(|c| row[c] <= sheet::limit(cells, c))
}

// The total in column c of all the pot's applications, with or without a sealed bid, at their administrative prices.
fn admin_total(sheet: &Sheet, c: usize) -> u64
    requires { c < sheet.now.size.columns }
    ensures { result ≡ admin_total_of sheet.now.cells.now sheet.now.size c sheet.now.size.applications }
{
    let mut sum: u64 = 0;
    for a in 0..sheet.size.applications {
        if sheet::in_test(sheet.cells, a) {
            sum += valued(sheet, BIDS + a, sheet::admin_price(sheet.cells, a), c);
        }
    }
    sum
}

// The row of totals of the first test.
pub fn admin_totals(sheet: &Sheet) -> [u64; COLUMNS]
    ensures { result ≡ filled (λ c. admin_total_of sheet.now.cells.now sheet.now.size c sheet.now.size.applications) sheet.now.size.columns }
{
    let mut row = [0u64; COLUMNS];
    for c in 0..sheet.size.columns {
        row[c] = admin_total(sheet, c);
    }
    row
}
