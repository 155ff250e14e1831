// A number of up to 28 digits, in two columns, and its lines of division.
ghost use Rattle.std.specs.Prelude.{◌≡◌, ◌*◌, ◌%◌, ◌^◌, ◌≤◌, ◌<◌};
ghost use Rattle.rules.specs.Value.{ceil_div, most_share};
ghost use Rattle.value.specs.Scales.{widest};
ghost use Rattle.value.specs.Wide.{most_lower, number_of, Product, Over};

// The upper column counts units of 10^11, the scales of price, load factor, capacity and 1 − TLM together: after their lines it counts ones.
const COLUMN: u64 = 100000000000;

#[derive(Clone, Copy)]
pub struct Wide {
    pub upper: u64,
    // how many units of the lower column make one of the upper
    pub column: u64,
    pub lower: u64,
}

// One line: over a scale, rounded up. `div_ceil` would look at the remainder as well, which costs a third more for a value.
pub fn over(n: u64, scale: u64) -> u64
    requires { (0 < scale) × (scale ≤ widest) × (n ≤ most_lower) }
    ensures { result ≡ ceil_div n scale }
{
    (n + (scale - 1)) / scale
}

impl Wide {
    pub fn product(parts: u64, share: u64) -> Self
        requires { share ≤ most_share }
        ensures { Product parts share result }
    {
        Self {
            upper: parts / COLUMN * share,
            column: COLUMN,
            lower: parts % COLUMN * share,
        }
    }

    // One line: over a scale, rounded up. The units of the upper column get smaller by the scale, and so the lower alone is divided.
    pub fn over(self, scale: u64) -> Self
        requires { (0 < scale) × (scale ≤ widest) × (self.column % scale ≡ 0) × (self.lower ≤ most_lower) }
        ensures { Over self scale result }
    {
        Self {
            upper: self.upper,
            column: self.column / scale,
            lower: over(self.lower, scale),
        }
    }

    // In one column.
    pub fn number(self) -> u64
        requires { number_of self < 2 ^ 64 }
        ensures { result ≡ number_of self }
    {
        self.upper * self.column + self.lower
    }
}
