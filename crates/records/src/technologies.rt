// The technologies' records: refusals 1 and 5.
ghost use Rattle.std.specs.Prelude.{◌≡◌, ◌+◌, ◌*◌, ◌≤◌, ◌<◌, ◌^◌, length};
ghost use Rattle.rules.specs.Names.{most_years, tech_width};
ghost use Rattle.rules.specs.Reading.{fault_in, reading_in};
ghost use Rattle.rules.specs.Refusals.{record_fault, tech_fault};
ghost use Rattle.records.specs.Numbers.{prices_of};
ghost use Rattle.records.specs.Records.{techs_of};

use super::order::in_order;
use layout::technology::Technologies;
use rules::{Refusal, Rule, Sections};

// What is wrong with a technology's numbers in year y, the delivery years being the first so many.
fn prices_fault(
    y: usize,
    deliveries: usize,
    admin: u64,
    reference: u64,
    load: u64,
) -> Result<(), Rule>
    ensures { fault_in result ≡ prices_of y deliveries admin reference load }
{
    if names::HIGHEST_PRICE < reference || names::WHOLE < load {
        return Err(Rule::TechBroken);
    }
    if y < deliveries {
        let over = admin % names::PRICE_STEP;
        if admin < names::PRICE_STEP || names::HIGHEST_PRICE < admin || over != 0 {
            return Err(Rule::TechBroken);
        }
    } else if admin != 0 {
        return Err(Rule::TechBroken);
    }
    Ok(())
}

// What is wrong with technology t, in a file of so many delivery years and pots.
fn tech_fault(of: &Technologies, deliveries: usize, pots: usize, t: usize) -> Result<(), Rule>
    requires { (of.now.years ≤ most_years) × (t * tech_width of.now.years ≤ length of.now.recs.now) }
    ensures { fault_in result ≡ record_fault of.now.recs.now (tech_width of.now.years) (tech_fault of.now.years deliveries pots of.now.recs.now) t }
{
    if of.recs.len() - of.place(t) < of.width() {
        return Err(Rule::EndsEarly);
    }
    let pot = of.pot(t);
    let rqm = of.rqm(t);
    if pots <= pot || names::WHOLE < rqm {
        return Err(Rule::TechBroken);
    }
    for y in 0..of.years {
        let admin = of.admin(t, y);
        let reference = of.reference(t, y);
        let load = of.load(t, y);
        prices_fault(y, deliveries, admin, reference, load)?;
    }
    Ok(())
}

// The technologies' records, in the part of the file that they occupy and that starts at `base`. If nothing is wrong, `done` is the answer.
pub fn technologies(recs: &[u8], base: usize, done: Sections) -> Result<Sections, Refusal>
    requires { (done.years ≤ most_years) × (base + length recs.now < 2 ^ 63) }
    ensures { reading_in result ≡ techs_of recs.now base done }
{
    let of = Technologies {
        recs,
        years: done.years,
    };
    in_order(
        done.technologies,
        base,
        of.width(),
        |t| tech_fault(&of, done.deliveries, done.pots, t),
    )?;
    Ok(done)
}
