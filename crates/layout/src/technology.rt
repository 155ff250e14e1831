// A technology's record: "pot 2, RQM 2, then for each year: administrative price 4, reference price 4, load factor 2".
ghost use Rattle.std.specs.Prelude.{◌≡◌, ◌+◌, ◌*◌, ◌<◌, ◌^◌};
ghost use Rattle.rules.specs.Names.{tech_width};
ghost use Rattle.rules.specs.File.{tech_at};
ghost use Rattle.layout.specs.Layout.{Room};

// Where a field stands in the record, which starts with the pot. Of the last three, each year has its own, `TECH_YEAR` bytes further on.
const RQM: usize = 2;

const ADMIN: usize = 4;

const REFERENCE: usize = 8;

const LOAD: usize = 12;

// The bytes of a record, in a file of so many years.
pub fn width(years: usize) -> usize
    requires { tech_width years < 2 ^ 64 }
    ensures { result ≡ tech_width years }
{
    names::TECH_HEAD + names::TECH_YEAR * years
}

// Where record t starts, in a file of so many years: so many bytes have the t records before it.
pub fn place(years: usize, t: usize) -> usize
    requires { t * tech_width years + tech_width years < 2 ^ 64 }
    ensures { result ≡ t * tech_width years }
{
    t * width(years)
}

// The technologies' records, in a file of so many years.
#[derive(Clone, Copy)]
pub struct Technologies<'a> {
    pub recs: &'a [u8],
    pub years: usize,
}

impl Technologies<'_> {
    // The bytes of a record.
    pub fn width(&self) -> usize
        requires { tech_width self.now.years < 2 ^ 64 }
        ensures { result ≡ tech_width self.now.years }
    {
        width(self.years)
    }

    // Where record t starts.
    pub fn place(&self, t: usize) -> usize
        requires { t * tech_width self.now.years + tech_width self.now.years < 2 ^ 64 }
        ensures { result ≡ t * tech_width self.now.years }
    {
        place(self.years, t)
    }

    pub fn pot(&self, t: usize) -> usize
        requires { Room self.now.recs.now (tech_width self.now.years) t }
        ensures { (result ≡ (tech_at self.now.years self.now.recs.now t).pot) × (result < 65536) }
    {
        fields::le16(self.recs, self.place(t)) as usize
    }

    pub fn rqm(&self, t: usize) -> u64
        requires { Room self.now.recs.now (tech_width self.now.years) t }
        ensures { (result ≡ (tech_at self.now.years self.now.recs.now t).rqm) × (result < 65536) }
    {
        fields::le16(self.recs, self.place(t) + RQM)
    }

    // The administrative price of technology t in year y.
    pub fn admin(&self, t: usize, y: usize) -> u64
        requires { Room self.now.recs.now (tech_width self.now.years) t × (y < self.now.years) }
        ensures { (result ≡ (tech_at self.now.years self.now.recs.now t).admin y) × (result < 4294967296) }
    {
        fields::le32(self.recs, self.place(t) + (ADMIN + names::TECH_YEAR * y))
    }

    pub fn reference(&self, t: usize, y: usize) -> u64
        requires { Room self.now.recs.now (tech_width self.now.years) t × (y < self.now.years) }
        ensures { (result ≡ (tech_at self.now.years self.now.recs.now t).reference y) × (result < 4294967296) }
    {
        fields::le32(
            self.recs,
            self.place(t) + (REFERENCE + names::TECH_YEAR * y),
        )
    }

    pub fn load(&self, t: usize, y: usize) -> u64
        requires { Room self.now.recs.now (tech_width self.now.years) t × (y < self.now.years) }
        ensures { (result ≡ (tech_at self.now.years self.now.recs.now t).load y) × (result < 65536) }
    {
        fields::le16(self.recs, self.place(t) + (LOAD + names::TECH_YEAR * y))
    }
}
