// What passing over a branch rests on, tested of the numbers at hand: more delivery years at the price of the tie cost the winners no less, and each binary place
// is that of a bid. In an auction it is always so; where it is not, nothing is passed over.
ghost use Rattle.std.specs.Prelude.{true, false, ◌≡◌, ◌*◌, ◌<◌};
ghost use Rattle.sheet.specs.Sheet.{columns};
ghost use Rattle.combinations.specs.Combinations.{year_sets, Placed};
ghost use Rattle.rules.specs.Names.{most_deliveries};
ghost use Rattle.added.specs.Added.{Rises, Rising, Held, Onto, Sound, Busy};

use combinations::Tied;
use combinations::places::{SETS, member, power};
use combinations::tables::{Base, Owns};
use names::MOST_DELIVERIES;
use sheet::{COLUMNS, Size};

// Do the winners cost no less in column c where delivery year d is added to the set t? One of all such, by its number.
fn rises(base: &Base, i: usize) -> bool
    requires { i < year_sets * most_deliveries * columns }
    ensures { result ≡ true → Rises base.now i }
{
    let c = i % COLUMNS;
    let d = (i / COLUMNS % MOST_DELIVERIES) as u32;
    let t = i / COLUMNS / MOST_DELIVERIES;
    member(t as u32, d) || base[t * COLUMNS + c] <= base[(t + power(d) as usize) * COLUMNS + c]
}

// The same of all.
fn rising(base: &Base) -> bool
    ensures { result ≡ true → Rising base.now }
{
    (0..SETS * MOST_DELIVERIES * COLUMNS).all(|i| rises(base, i))
}

// Is a binary place that of a bid?
fn held(tied: Tied, place: usize) -> bool
    requires { Placed tied }
    ensures { result ≡ true → Held tied place }
{
    tied.ranks[..tied.count]
        .iter()
        .any(|&rank| rank as usize == place)
}

// The same of each binary place of the tie.
fn onto(tied: Tied) -> bool
    requires { Placed tied }
    ensures { result ≡ true → Onto tied }
{
    (0..tied.count).all(|place| held(tied, place))
}

// Does all of it hold?
pub fn sound(base: &Base, tied: Tied) -> bool
    requires { Placed tied }
    ensures { result ≡ true → Sound base.now tied }
{
    onto(tied) && rising(base)
}

// Is some bid worth nothing in the last year?
pub fn idle(of: Size, own: &Owns, tied: Tied) -> bool
    requires { Placed tied × (0 < of.years) × (of.years < columns) }
    ensures { result ≡ false → Busy of own.now tied }
{
    let last = of.years - 1;
    (0..tied.count).any(|j| own[j * COLUMNS + last] == 0)
}
