// The years' records: refusals 1 and 3.
ghost use Rattle.std.specs.Prelude.{◌≡◌, ◌+◌, ◌*◌, ◌≤◌, ◌<◌, ◌^◌, length};
ghost use Rattle.rules.specs.Names.{year_width};
ghost use Rattle.rules.specs.File.{deliveries};
ghost use Rattle.rules.specs.Reading.{reading_in};
ghost use Rattle.records.specs.Records.{years_of};
ghost use Rattle.records.specs.Years.{KindRight};

use layout::kind::Kind;
use layout::year;
use rules::{Refusal, Rule, Sections};

// Of what kind year y is, before which there are so many delivery years; or what is wrong with it.
fn year_kind(recs: &[u8], y: usize, before: usize) -> Result<Kind, Rule>
    requires { (y * year_width ≤ length recs.now) × (before ≡ deliveries recs.now y) }
    ensures { KindRight recs.now y result }
{
    if recs.len() - y * names::YEAR_WIDTH < names::YEAR_WIDTH {
        return Err(Rule::EndsEarly);
    }
    let days = year::days(recs, y);
    let tlm = year::tlm(recs, y);
    if days < names::SHORT_YEAR || names::LONG_YEAR < days || names::WHOLE < tlm {
        return Err(Rule::YearBroken);
    }
    let Ok(kind) = year::known_kind(recs, y) else {
        return Err(Rule::YearBroken);
    };
    let in_place = match kind {
        Kind::ValuationOnly => y > 0,
        Kind::Delivery => before == y && before < names::MOST_DELIVERIES,
    };
    if in_place {
        Ok(kind)
    } else {
        Err(Rule::YearBroken)
    }
}

// The years' records, of which there are to be n, in the part of the file that they occupy and that starts at `base`.
pub fn years(recs: &[u8], n: usize, base: usize) -> Result<Sections, Refusal>
    requires { base + length recs.now < 2 ^ 63 }
    ensures { reading_in result ≡ years_of recs.now n base }
{
    let mut deliveries: usize = 0;
    for y in 0..n {
        match year_kind(recs, y, deliveries) {
            Ok(kind) => deliveries += usize::from(kind == Kind::Delivery),
            Err(rule) => {
                return Err(Refusal {
                    rule,
                    at: base + y * names::YEAR_WIDTH,
                });
            }
        }
    }
    Ok(Sections {
        years: n,
        deliveries,
        gained: 0,
        pots: 0,
        technologies: 0,
        applications: 0,
        bids: 0,
        pots_at: base + n * names::YEAR_WIDTH,
        technologies_at: 0,
        applications_at: 0,
        bids_at: 0,
    })
}
