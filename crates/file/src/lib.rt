// The reader of a round file: five sections in order, each refusal carried out as it is; then refusals 10 and 11.
#![tactic(auto)]

ghost use Rattle.std.specs.Prelude.{◌≡◌};
ghost use Rattle.rules.specs.Reading.{Accepted, reading_in};
ghost use Rattle.rules.specs.Refusals.{reading};
ghost use Rattle.file.specs.Reads.{read_bids};

mod count;
mod section;

use rules::{Refusal, Rule, Sections};

// "Then 10, 11": the sections were read, and nothing is to follow them.
fn ending(file: &[u8], done: Sections) -> Result<Sections, Refusal>
    requires { read_bids file.now ≡ Accepted done }
    ensures { reading_in result ≡ reading file.now }
{
    let at = done.bids_at;
    let start = at + names::COUNT_WIDTH;
    let end = start + done.bids * names::BID_WIDTH;
    if reader::left(file, end) > 0 {
        return Err(Refusal {
            rule: Rule::BytesAfter,
            at: end,
        });
    }
    bids::lowest::lowest(reader::records_after(file, at, end), start, done)
}

// The whole file: its sections, or the first refusal.
pub fn read(file: &[u8]) -> Result<Sections, Refusal>
    ensures { reading_in result ≡ reading file.now }
{
    let years = section::read_years(file);
    let Ok(sections) = years else {
        return years;
    };
    let pots = section::read_pots(file, sections);
    let Ok(sections) = pots else {
        return pots;
    };
    let technologies = section::read_technologies(file, sections);
    let Ok(sections) = technologies else {
        return technologies;
    };
    let applications = section::read_applications(file, sections);
    let Ok(sections) = applications else {
        return applications;
    };
    let bids = section::read_bids(file, sections);
    let Ok(sections) = bids else {
        return bids;
    };
    ending(file, sections)
}
