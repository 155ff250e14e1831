// What the winners of each delivery year count, a row of columns for each, and the row of totals that these come to.
ghost use Rattle.std.specs.Prelude.{◌≡◌, ◌*◌, ◌≤◌, ◌<◌, get_or};
ghost use Rattle.rules.specs.Names.{most_deliveries};
ghost use Rattle.arrays.specs.Sets.{placed};
ghost use Rattle.sheet.specs.Sheet.{columns};
ghost use Rattle.totals.specs.Totals.{filled, column_sum, Totalling};

use names::MOST_DELIVERIES;
use sheet::{COLUMNS, Size};

// A row of columns for each delivery year: what the winners that start there count at its clearing price.
pub type Sums = [u64; MOST_DELIVERIES * COLUMNS];

// A row of totals, laid as that of delivery year d.
pub fn laid(of: Size, mut sums: Sums, row: [u64; COLUMNS], d: usize) -> Sums
    requires { (of.columns ≤ columns) × (d < most_deliveries) }
    ensures { result ≡ placed (λ c. get_or row c 0) sums (d * columns) of.columns }
{
    arrays::lay(&mut sums, &row[..of.columns], d * COLUMNS);
    sums
}

// The row of totals: what the winners of the four delivery years count together.
pub fn column_totals(of: Size, sums: Sums) -> [u64; COLUMNS]
    requires { Totalling of sums }
    ensures { result ≡ filled (column_sum sums) of.columns }
{
    let mut row = [0u64; COLUMNS];
    for c in 0..of.columns {
        row[c] = sums[c] + sums[COLUMNS + c] + sums[2 * COLUMNS + c] + sums[3 * COLUMNS + c];
    }
    row
}
