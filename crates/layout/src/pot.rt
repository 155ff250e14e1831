// A pot's record: "budget 8 for each year", "a 4-byte cap after its budgets" in a file with caps, and "a 4-byte drawn number after the cap" in one with drawn
// numbers.
ghost use Rattle.std.specs.Prelude.{◌≡◌, ◌+◌, ◌*◌, ◌≤◌, ◌<◌, ◌^◌};
ghost use Rattle.rules.specs.Names.{cap_width, drawn_width, pot_width};
ghost use Rattle.rules.specs.File.{pots_told, gained_told, budget_at, cap_at, drawn_at};
ghost use Rattle.layout.specs.Layout.{Room};

// What the pots count of a file with drawn numbers has added: "16,384 .. as well" as the 32,768 of caps.
const BOTH_ADDED: u64 = names::CAPS_ADDED + names::DRAWN_ADDED;

// The bytes of a cap and of a drawn number.
const BOTH_WIDTH: usize = names::CAP_WIDTH + names::DRAWN_WIDTH;

// How many pots their count tells, with what was added taken off. "16,384 added without 32,768" is not taken off, so that the count is out of its range.
#[tactic(auto, unfolding(rules::specs::File::pots_told))]
pub fn pots_told(count: u64) -> u64
    ensures { (result ≡ pots_told count) × (result ≤ count) }
{
    if count < names::CAPS_ADDED {
        count
    } else if count < BOTH_ADDED {
        count - names::CAPS_ADDED
    } else {
        count - BOTH_ADDED
    }
}

// How many bytes a pot's record has gained, after such a count.
#[tactic(auto, unfolding(rules::specs::File::gained_told))]
pub fn gained_told(count: u64) -> usize
    ensures { (result ≡ gained_told count) × (result ≤ cap_width + drawn_width) }
{
    if count < names::CAPS_ADDED {
        0
    } else if count < BOTH_ADDED {
        names::CAP_WIDTH
    } else {
        BOTH_WIDTH
    }
}

// The bytes of a record, in a file of so many years, and with so many bytes gained.
pub fn width(years: usize, gained: usize) -> usize
    requires { pot_width years gained < 2 ^ 64 }
    ensures { result ≡ pot_width years gained }
{
    names::BUDGET_WIDTH * years + gained
}

// Where record p starts: so many bytes have the p records before it.
pub fn place(years: usize, gained: usize, p: usize) -> usize
    requires { p * pot_width years gained + pot_width years gained < 2 ^ 64 }
    ensures { result ≡ p * pot_width years gained }
{
    p * width(years, gained)
}

// The pots' records, in a file of so many years and with so many bytes gained.
#[derive(Clone, Copy)]
pub struct Pots<'a> {
    pub recs: &'a [u8],
    pub years: usize,
    pub gained: usize,
}

impl Pots<'_> {
    // The bytes of a record.
    pub fn width(&self) -> usize
        requires { pot_width self.now.years self.now.gained < 2 ^ 64 }
        ensures { result ≡ pot_width self.now.years self.now.gained }
    {
        width(self.years, self.gained)
    }

    // Where record p starts.
    pub fn place(&self, p: usize) -> usize
        requires { p * pot_width self.now.years self.now.gained + pot_width self.now.years self.now.gained < 2 ^ 64 }
        ensures { result ≡ p * pot_width self.now.years self.now.gained }
    {
        place(self.years, self.gained, p)
    }

    // The budget of pot p in year y.
    pub fn budget(&self, p: usize, y: usize) -> u64
        requires { Room self.now.recs.now (pot_width self.now.years self.now.gained) p × (y < self.now.years) }
        ensures { result ≡ budget_at self.now.years self.now.gained self.now.recs.now p y }
    {
        fields::le64(self.recs, self.place(p) + names::BUDGET_WIDTH * y)
    }

    // The cap of pot p, in a file with caps.
    pub fn cap(&self, p: usize) -> u64
        requires { Room self.now.recs.now (pot_width self.now.years self.now.gained) p × (cap_width ≤ self.now.gained) }
        ensures { (result ≡ cap_at self.now.years self.now.gained self.now.recs.now p) × (result < 4294967296) }
    {
        fields::le32(self.recs, self.place(p) + names::BUDGET_WIDTH * self.years)
    }

    // The drawn number of pot p, in a file with drawn numbers.
    pub fn drawn(&self, p: usize) -> u64
        requires { Room self.now.recs.now (pot_width self.now.years self.now.gained) p × (cap_width + drawn_width ≤ self.now.gained) }
        ensures { (result ≡ drawn_at self.now.years self.now.gained self.now.recs.now p) × (result < 4294967296) }
    {
        let after_cap = names::BUDGET_WIDTH * self.years + names::CAP_WIDTH;
        fields::le32(self.recs, self.place(p) + after_cap)
    }
}
