// The pots' records: refusals 1 and 4.
ghost use Rattle.std.specs.Prelude.{◌≡◌, ◌+◌, ◌*◌, ◌≤◌, ◌<◌, ◌^◌, length};
ghost use Rattle.rules.specs.Names.{most_years, pot_width};
ghost use Rattle.rules.specs.Reading.{fault_in, reading_in};
ghost use Rattle.rules.specs.Refusals.{record_fault, pot_fault};
ghost use Rattle.laws_reading.specs.Reading.{GainedTold};
ghost use Rattle.records.specs.Numbers.{cap_fault};
ghost use Rattle.records.specs.Records.{pots_of};

use super::order::in_order;
use layout::pot::Pots;
use rules::{Refusal, Rule, Sections};

// What is wrong with a cap.
fn cap_fault(cap: u64) -> Result<(), Rule>
    ensures { fault_in result ≡ cap_fault cap }
{
    if cap != names::NO_CAP && names::HIGHEST_CAP < cap {
        return Err(Rule::PotBroken);
    }
    Ok(())
}

// What is wrong with pot p. Every drawn number is right.
fn pot_fault(of: &Pots, p: usize) -> Result<(), Rule>
    requires { (of.now.years ≤ most_years) × (GainedTold of.now.gained × (p * pot_width of.now.years of.now.gained ≤ length of.now.recs.now)) }
    ensures { fault_in result ≡ record_fault of.now.recs.now (pot_width of.now.years of.now.gained) (pot_fault of.now.years of.now.gained of.now.recs.now) p }
{
    if of.recs.len() - of.place(p) < of.width() {
        return Err(Rule::EndsEarly);
    }
    if (0..of.years).any(|y| of.budget(p, y) > names::HIGHEST_BUDGET) {
        return Err(Rule::PotBroken);
    }
    if of.gained == 0 {
        return Ok(());
    }
    cap_fault(of.cap(p))
}

// The pots' records, in the part of the file that they occupy and that starts at `base`. If nothing is wrong, `done` is the answer.
pub fn pots(recs: &[u8], base: usize, done: Sections) -> Result<Sections, Refusal>
    requires { (done.years ≤ most_years) × (GainedTold done.gained × (base + length recs.now < 2 ^ 63)) }
    ensures { reading_in result ≡ pots_of recs.now base done }
{
    let of = Pots {
        recs,
        years: done.years,
        gained: done.gained,
    };
    in_order(done.pots, base, of.width(), |p| pot_fault(&of, p))?;
    Ok(done)
}
