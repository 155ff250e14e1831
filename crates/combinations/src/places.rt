// Numbers as sets, by their binary places: a combination has a place for each remaining bid, a set of delivery years one for each of these.
ghost use Rattle.std.specs.Prelude.{◌≡◌, ◌*◌, ◌^◌, ◌≤◌, ◌<◌};
ghost use Rattle.rules.specs.Names.{most_deliveries, widest_tie};
ghost use Rattle.rules.specs.Pot.{has};
ghost use Rattle.combinations.specs.Combinations.{year_sets, parts, part_size, part_places, touch_of};

// The sets of delivery years.
pub const SETS: usize = 16;

// A combination's number has twenty binary places, in four parts of five: so many numbers to a part, to two of them, and to three.
pub const PARTS: usize = 4;

pub const PART_PLACES: usize = 5;

pub const PART: usize = 32;

pub const TWO_PARTS: usize = PART * PART;

pub const THREE_PARTS: usize = PART * TWO_PARTS;

// Is binary place i in a number?
pub fn member(mask: u32, i: u32) -> bool
    requires { i < 32 }
    ensures { result ≡ has mask i }
{
    (mask >> i) % 2 == 1
}

// The number with binary place i alone.
pub fn power(i: u32) -> u32
    requires { i < 32 }
    ensures { result ≡ 2 ^ i }
{
    1 << i
}

// The highest binary place of a number of one part.
pub fn top(v: usize) -> u32
    requires { (0 < v) × (v < part_size) }
    ensures { (result < part_places) × (2 ^ result ≤ v) × (v < 2 * 2 ^ result) }
{
    v.ilog2()
}

// As many parts as have the places of so many bids.
pub fn parts_of(count: usize) -> usize
    requires { count ≤ widest_tie }
    ensures { (count ≤ result * part_places) × (result ≤ parts) }
{
    count.div_ceil(PART_PLACES)
}

// The set t of delivery years, with year d.
pub fn touch(t: u32, d: u32) -> u32
    requires { (t < year_sets) × (d < most_deliveries) }
    ensures { (result ≡ touch_of t d) × (result < year_sets) }
{
    if member(t, d) { t } else { t + power(d) }
}
