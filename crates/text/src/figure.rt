// A number or an amount of money as people write it, its digits in groups of three: put down from the last digit to the first.
ghost use Rattle.std.specs.Prelude.{◌+◌, ◌≡◌, ◌≤◌};
ghost use Rattle.text.specs.Figure.{longest, Whole};
ghost use Rattle.value.specs.Wide.{number_of};

use value::wide::Wide;

// The digits of the longest number.
const DIGITS: usize = 28;

const GROUP: usize = 3;

// The places of a figure: its digits, a comma after each full group, a point with pence, and a pound sign.
pub const PLACES: usize = 42;

// A pound sign in UTF-8.
const SIGN: [u8; 2] = [0xC2, 0xA3];

// What stands from a place on; the places before it are blank.
#[derive(Clone, Copy)]
pub struct Figure {
    pub places: [u8; PLACES],
    pub at: usize,
}

// A number whose upper column is empty.
pub fn one_column(n: u64) -> Wide
    ensures { number_of result ≡ n }
{
    Wide {
        upper: 0,
        column: 10,
        lower: n,
    }
}

// A number in front of what stands from a place on. A tenth of it is a tenth of the upper column, and what that leaves over goes into the lower one.
fn before(from: Figure, n: Wide) -> Figure
    requires { Whole from × (longest ≤ from.at) }
    ensures { Whole result × (from.at ≤ result.at + longest) }
{
    let Figure { mut places, mut at } = from;
    let tenth = n.column / 10;
    let mut upper = n.upper;
    let mut lower = n.lower;
    for i in 0..DIGITS {
        at -= 1;
        places[at] = b'0' + (lower % 10) as u8;
        lower = upper % 10 * tenth + lower / 10;
        upper /= 10;
        if upper == 0 && lower == 0 {
            break;
        }
        if (i + 1) % GROUP == 0 {
            at -= 1;
            places[at] = b',';
        }
    }
    Figure { places, at }
}

impl Figure {
    pub fn number(n: Wide) -> Self
        ensures { Whole result }
    {
        let blank = Self {
            places: [b' '; PLACES],
            at: PLACES,
        };
        before(blank, n)
    }

    // Pounds and the pence beside them, below a hundred: £1,302,174.00.
    pub fn money(pounds: u64, pence: u64) -> Self
        ensures { Whole result }
    {
        let mut places = [b' '; PLACES];
        places[PLACES - 1] = b'0' + (pence % 10) as u8;
        places[PLACES - 2] = b'0' + (pence / 10 % 10) as u8;
        places[PLACES - 3] = b'.';
        let after = Self {
            places,
            at: PLACES - 3,
        };
        let Self { mut places, at } = before(after, one_column(pounds));
        let at = at - SIGN.len();
        places[at..at + SIGN.len()].copy_from_slice(&SIGN);
        Self { places, at }
    }
}
