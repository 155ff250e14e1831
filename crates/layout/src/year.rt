// A year's record: "days 2, kind 2 (1 delivery, 0 valuation only), TLM 2".
ghost use Rattle.std.specs.Prelude.{◌≡◌, ◌<◌};
ghost use Rattle.rules.specs.Names.{year_width};
ghost use Rattle.rules.specs.File.{year_at};
ghost use Rattle.layout.specs.Layout.{Room};
ghost use Rattle.layout.specs.Kind.{Decodes};

use crate::kind::{Kind, UnknownKind};

// Where a field stands in the record, which starts with the days.
const KIND: usize = 2;

const TLM: usize = 4;

pub fn days(recs: &[u8], y: usize) -> u64
    requires { Room recs.now year_width y }
    ensures { (result ≡ (year_at recs.now y).days) × (result < 65536) }
{
    fields::le16(recs, y * names::YEAR_WIDTH)
}

pub fn kind(recs: &[u8], y: usize) -> u64
    requires { Room recs.now year_width y }
    ensures { (result ≡ (year_at recs.now y).kind) × (result < 65536) }
{
    fields::le16(recs, y * names::YEAR_WIDTH + KIND)
}

// The kind of year y, if its number is that of one.
pub fn known_kind(recs: &[u8], y: usize) -> Result<Kind, UnknownKind>
    requires { Room recs.now year_width y }
    ensures { Decodes (year_at recs.now y).kind result × ((year_at recs.now y).kind < 65536) }
{
    Kind::try_from(kind(recs, y))
}

pub fn tlm(recs: &[u8], y: usize) -> u64
    requires { Room recs.now year_width y }
    ensures { (result ≡ (year_at recs.now y).tlm) × (result < 65536) }
{
    fields::le16(recs, y * names::YEAR_WIDTH + TLM)
}
