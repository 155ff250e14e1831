// An application's record: "technology 2, year 2, first-year days 2, draw 2, capacity 4, declared cost 8". Nothing reads the declared cost but
// the tables for people.
ghost use Rattle.std.specs.Prelude.{◌≡◌, ◌+◌, ◌*◌, ◌<◌};
ghost use Rattle.rules.specs.Names.{app_width};
ghost use Rattle.rules.specs.Bytes.{le};
ghost use Rattle.rules.specs.File.{app_at};
ghost use Rattle.layout.specs.Layout.{Room, application_shown};

#[derive(Clone, Copy)]
pub struct Application {
    pub technology: usize,
    pub year: usize,
    pub days: u64,
    pub draw: u64,
    pub capacity: u64,
}

// Where a field stands in the record, which starts with the technology.
const YEAR: usize = 2;

const DAYS: usize = 4;

const DRAW: usize = 6;

const CAPACITY: usize = 8;

const DECLARED_COST: usize = 12;

// Application a.
pub fn read(recs: &[u8], a: usize) -> Application
    requires { Room recs.now app_width a }
    ensures { application_shown result ≡ app_at recs.now a }
{
    let at = a * names::APP_WIDTH;
    Application {
        technology: fields::le16(recs, at) as usize,
        year: fields::le16(recs, at + YEAR) as usize,
        days: fields::le16(recs, at + DAYS),
        draw: fields::le16(recs, at + DRAW),
        capacity: fields::le32(recs, at + CAPACITY),
    }
}

// The draw of application a.
pub fn draw(recs: &[u8], a: usize) -> u64
    requires { Room recs.now app_width a }
    ensures { (result ≡ (app_at recs.now a).draw) × (result < 65536) }
{
    fields::le16(recs, a * names::APP_WIDTH + DRAW)
}

// The declared cost of application a.
pub fn declared_cost(recs: &[u8], a: usize) -> u64
    requires { Room recs.now app_width a }
    ensures { result ≡ le 8 recs.now (a * app_width + 12) }
{
    fields::le64(recs, a * names::APP_WIDTH + DECLARED_COST)
}
