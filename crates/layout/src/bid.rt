// A bid's record: "application 2, year 2, first-year days 2, capacity 4, price 4".
ghost use Rattle.std.specs.Prelude.{◌≡◌, ◌<◌};
ghost use Rattle.rules.specs.Names.{bid_width};
ghost use Rattle.rules.specs.File.{bid_at};
ghost use Rattle.layout.specs.Layout.{Room, bid_shown};

#[derive(Clone, Copy)]
pub struct Bid {
    pub application: usize,
    pub year: usize,
    pub days: u64,
    pub capacity: u64,
    pub price: u64,
}

// Where a field stands in the record, which starts with the application.
const YEAR: usize = 2;

const DAYS: usize = 4;

const CAPACITY: usize = 6;

const PRICE: usize = 10;

// Bid k.
pub fn read(recs: &[u8], k: usize) -> Bid
    requires { Room recs.now bid_width k }
    ensures { bid_shown result ≡ bid_at recs.now k }
{
    let at = k * names::BID_WIDTH;
    Bid {
        application: fields::le16(recs, at) as usize,
        year: fields::le16(recs, at + YEAR) as usize,
        days: fields::le16(recs, at + DAYS),
        capacity: fields::le32(recs, at + CAPACITY),
        price: fields::le32(recs, at + PRICE),
    }
}

// The application of bid k.
pub fn application(recs: &[u8], k: usize) -> usize
    requires { Room recs.now bid_width k }
    ensures { (result ≡ (bid_at recs.now k).app) × (result < 65536) }
{
    fields::le16(recs, k * names::BID_WIDTH) as usize
}

// The year of bid k.
pub fn year(recs: &[u8], k: usize) -> usize
    requires { Room recs.now bid_width k }
    ensures { (result ≡ (bid_at recs.now k).year) × (result < 65536) }
{
    fields::le16(recs, k * names::BID_WIDTH + YEAR) as usize
}

// The price of bid k.
pub fn price(recs: &[u8], k: usize) -> u64
    requires { Room recs.now bid_width k }
    ensures { (result ≡ (bid_at recs.now k).price) × (result < 4294967296) }
{
    fields::le32(recs, k * names::BID_WIDTH + PRICE)
}
