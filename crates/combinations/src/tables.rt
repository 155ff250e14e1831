// What the bids of a tie count in each column, and in which delivery years they start: of each bid, and of each combination of the places of one part of its
// number; and beside what the present winners count, in one table, off which a combination is read.
ghost use Rattle.std.specs.Prelude.{◌≡◌, ◌*◌, ◌/◌, ◌≤◌, ◌<◌};
ghost use Rattle.sheet.specs.Sheet.{columns};
ghost use Rattle.combinations.specs.Combinations.{year_sets, combinations, most_base, Numbers, Placed, Owned, own_at, owns_of, touched_of};
ghost use Rattle.combinations.specs.Combinations.{combined_of, ones_of, costs_of, one_years_of, years_of, table_by, part_cost, part_years, joint_of};
ghost use Rattle.combinations.specs.Combinations.{union_of, Tabled, Parted, Joining};

use super::Tied;
use super::places::{
    PART, PART_PLACES, PARTS, SETS, THREE_PARTS, TWO_PARTS, member, parts_of, power, top, touch,
};
use names::WIDEST_TIE;
use sheet::{COLUMNS, Sheet};

// What the present winners count: a row of columns for each set of delivery years that has the price of the tie.
pub type Base = [u64; SETS * COLUMNS];

// A row of columns for each bid, or for each binary place.
pub type Owns = [u64; WIDEST_TIE * COLUMNS];

// The numbers of one part, with a row of columns for each.
const ROWS: usize = PART * COLUMNS;

// A row of columns, and the delivery years, of each number of each part.
type Costs = [u64; PARTS * ROWS];

type Dates = [u64; PARTS * PART];

// Where these stand in a table, after what the winners count for each set of delivery years; and the whole.
const COSTS_AT: usize = SETS * COLUMNS;

const DATES_AT: usize = COSTS_AT + PARTS * ROWS;

pub type Table = [u64; DATES_AT + PARTS * PART];

// One place of `owns`.
fn own_at(sheet: &Sheet, tied: Tied, price: u64, i: usize) -> u64
    requires { Numbers tied.bids tied.count sheet.now.size.bids × (i / columns < tied.count) }
    ensures { result ≡ own_at sheet.now.cells.now sheet.now.size tied.bids price i }
{
    let c = i % COLUMNS;
    if c < sheet.size.columns {
        return totals::worth(sheet, tied.bids[i / COLUMNS], price, c);
    }
    0
}

// What each bid counts at a price.
pub fn owns(sheet: &Sheet, tied: Tied, price: u64) -> Owns
    requires { Numbers tied.bids tied.count sheet.now.size.bids }
    ensures { result ≡ owns_of sheet.now.cells.now sheet.now.size tied.bids price tied.count }
{
    let mut own = [0u64; WIDEST_TIE * COLUMNS];
    for i in 0..tied.count * COLUMNS {
        own[i] = own_at(sheet, tied, price, i);
    }
    own
}

// The delivery years in which the bids of a combination start.
fn touched(tied: Tied, mask: u32) -> u32
    requires { Placed tied }
    ensures { (result ≡ touched_of tied.ranks tied.starts mask tied.count) × (result < year_sets) }
{
    let mut t: u32 = 0;
    for j in 0..tied.count {
        if member(mask, tied.ranks[j]) {
            t = touch(t, tied.starts[j]);
        }
    }
    t
}

// What the bids of a combination count in column c.
fn combined(own: &Owns, tied: Tied, mask: u32, c: usize) -> u64
    requires { Owned own.now tied × (c < columns) }
    ensures { result ≡ combined_of own.now tied.ranks mask c tied.count }
{
    let mut sum: u64 = 0;
    for j in 0..tied.count {
        if member(mask, tied.ranks[j]) {
            sum += own[j * COLUMNS + c];
        }
    }
    sum
}

// The same for each binary place alone. No bid has one of the places past the number of bids.
fn ones(own: &Owns, tied: Tied) -> Owns
    requires { Owned own.now tied }
    ensures { result ≡ ones_of own.now tied.ranks tied.count }
{
    let mut out = [0u64; WIDEST_TIE * COLUMNS];
    for i in 0..tied.count * COLUMNS {
        let place = power((i / COLUMNS) as u32);
        out[i] = combined(own, tied, place, i % COLUMNS);
    }
    out
}

// The same for each number of each part: that without its highest place, and that place.
fn costs(own: &Owns, tied: Tied) -> Costs
    requires { Owned own.now tied }
    ensures { result ≡ costs_of own.now tied.ranks tied.count }
{
    let one = ones(own, tied);
    let mut out = [0u64; PARTS * ROWS];
    for i in 0..parts_of(tied.count) * ROWS {
        let v = i / COLUMNS % PART;
        if v > 0 {
            let r = top(v);
            let less = power(r) as usize;
            let alone = one[(i / ROWS * PART_PLACES + r as usize) * COLUMNS + i % COLUMNS];
            out[i] = out[i - less * COLUMNS] + alone;
        }
    }
    out
}

// The delivery years that each binary place touches.
fn one_years(tied: Tied) -> [u64; WIDEST_TIE]
    requires { Placed tied }
    ensures { result ≡ one_years_of tied.ranks tied.starts tied.count }
{
    let mut out = [0u64; WIDEST_TIE];
    for i in 0..tied.count {
        out[i] = u64::from(touched(tied, power(i as u32)));
    }
    out
}

// The same for each number of each part.
fn years(tied: Tied) -> Dates
    requires { Placed tied }
    ensures { result ≡ years_of tied.ranks tied.starts tied.count }
{
    let one = one_years(tied);
    let mut out = [0u64; PARTS * PART];
    for i in 0..parts_of(tied.count) * PART {
        let v = i % PART;
        if v > 0 {
            let r = top(v);
            let less = power(r) as usize;
            out[i] = out[i - less] | one[i / PART * PART_PLACES + r as usize];
        }
    }
    out
}

// All that the totals of combinations are read off.
pub fn table(base: &Base, own: &Owns, tied: Tied) -> Table
    requires { Owned own.now tied }
    ensures { result ≡ table_by base.now own.now tied.ranks tied.starts tied.count }
{
    let costs = costs(own, tied);
    let dates = years(tied);
    let mut out = [0u64; DATES_AT + PARTS * PART];
    out[..COSTS_AT].copy_from_slice(base);
    out[COSTS_AT..DATES_AT].copy_from_slice(&costs);
    out[DATES_AT..].copy_from_slice(&dates);
    out
}

// Of the number v of one part, what its bids count in column c.
pub fn part_cost(table: &Table, part: usize, v: usize, c: usize) -> u64
    requires { Parted table.now part v × (c < columns) }
    ensures { (result ≡ part_cost table.now part v c) × (result ≤ most_base) }
{
    table[COSTS_AT + part * ROWS + v * COLUMNS + c]
}

// And the delivery years that they touch.
pub fn part_years(table: &Table, part: usize, v: usize) -> usize
    requires { Parted table.now part v }
    ensures { (result ≡ part_years table.now part v) × (result < year_sets) }
{
    table[DATES_AT + part * PART + v] as usize
}

// The delivery years that a combination touches.
pub fn union(table: &Table, mask: u32) -> usize
    requires { Tabled table.now × (mask < combinations) }
    ensures { (result ≡ union_of table.now mask) × (result < year_sets) }
{
    let n = mask as usize;
    let low = part_years(table, 0, n % PART);
    let second = part_years(table, 1, n / PART % PART);
    let third = part_years(table, 2, n / TWO_PARTS % PART);
    let high = part_years(table, 3, n / THREE_PARTS);
    low | (second | (third | high))
}

// The total in column c where a combination, which touches the years t, is added to the winners.
pub fn joint(table: &Table, mask: u32, t: usize, c: usize) -> u64
    requires { Joining table.now mask t × (c < columns) }
    ensures { result ≡ joint_of table.now mask t c }
{
    let n = mask as usize;
    let low = part_cost(table, 0, n % PART, c);
    let second = part_cost(table, 1, n / PART % PART, c);
    let third = part_cost(table, 2, n / TWO_PARTS % PART, c);
    let high = part_cost(table, 3, n / THREE_PARTS, c);
    table[t * COLUMNS + c] + low + second + third + high
}
