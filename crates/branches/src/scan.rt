// The combinations of one branch in which the lowest part of the number alone is undecided, one after the other: what the upper parts come to is read once.
ghost use Rattle.std.specs.Prelude.{◌≡◌, ◌+◌, ◌-◌, ◌*◌, ◌/◌, ◌%◌, ◌≤◌, ◌<◌};
ghost use Rattle.sheet.specs.declared.Size.{Size};
ghost use Rattle.combinations.specs.Combinations.{combinations, part_size};
ghost use Rattle.ties.specs.Ties.{last_by};
ghost use Rattle.branches.specs.Branches.{Lasting, upper_of, Upright, total_at, Short, Other};

use super::ONE_LOW;
use combinations::places::PART;
use combinations::tables::{Table, part_cost, part_years};
use sheet::{COLUMNS, Size};

// The delivery years that the upper parts of a number touch, and what their bids count in the last year.
#[derive(Clone, Copy)]
pub struct Upper {
    pub years: usize,
    pub sum: u64,
}

// Of the numbers whose upper parts are those of h.
fn above(of: Size, table: &Table, h: usize) -> Upper
    requires { Lasting of table.now × (h < combinations / part_size) }
    ensures { (result ≡ upper_of of table.now h) × Upright result }
{
    let c = of.years - 1;
    let second = h % PART;
    let third = h / PART % PART;
    let high = h / PART / PART;
    let a = part_years(table, 1, second);
    let b = part_years(table, 2, third);
    let d = part_years(table, 3, high);
    let e = part_cost(table, 1, second, c);
    let f = part_cost(table, 2, third, c);
    let g = part_cost(table, 3, high, c);
    Upper {
        years: a | (b | d),
        sum: e + f + g,
    }
}

// The total in the last year of the one of them whose lowest part is v.
fn total(of: Size, table: &Table, upper: Upper, v: usize) -> u64
    requires { Lasting of table.now × Upright upper × (v < part_size) }
    ensures { result ≡ total_at of table.now upper v }
{
    let c = of.years - 1;
    let t = part_years(table, 0, v) | upper.years;
    let low = part_cost(table, 0, v, c);
    table[t * COLUMNS + c] + low + upper.sum
}

// How many from `mask` on, within its branch, have another total in the last year than `most`.
pub fn others(of: Size, table: &Table, most: u64, mask: u32) -> u32
    requires { Lasting of table.now × (mask < combinations) }
    ensures { Other (last_by of table.now) most mask result }
{
    let up = above(of, table, (mask / ONE_LOW) as usize);
    let low = mask % ONE_LOW;
    for v in low..ONE_LOW {
        if total(of, table, up, v as usize) == most {
            return v - low;
        }
    }
    ONE_LOW - low
}

// How many before `left`, within one branch, have less in the last year than `goal`, or more than the limit.
pub fn shorts(of: Size, table: &Table, goal: u64, limit: u64, left: u32) -> u32
    requires { Lasting of table.now × (0 < left) × (left ≤ combinations) }
    ensures { Short (last_by of table.now) goal limit left result }
{
    let head = (left - 1) / ONE_LOW;
    let up = above(of, table, head as usize);
    let from = head * ONE_LOW;
    for v in (0..left - from).rev() {
        let w = total(of, table, up, v as usize);
        if w >= goal && w <= limit {
            return left - from - (v + 1);
        }
    }
    left - from
}
