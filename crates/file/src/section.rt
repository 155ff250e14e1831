// The five sections: each count is judged, then the records are handed on as the part of the file that they occupy.
ghost use Rattle.std.specs.Prelude.{◌≡◌};
ghost use Rattle.rules.specs.Reading.{Accepted, reading_in};
ghost use Rattle.file.specs.Reads.{read_years, read_pots, read_techs, read_apps, read_bids};

use super::count::{count_fault, pots_count_fault};
use layout::{parts, pot, technology};
use reader::{count_at, records_after};
use records::applications::applications;
use records::pots::pots;
use records::technologies::technologies;
use records::years::years;
use rules::{Refusal, Sections};

// The years, with which a file begins.
pub fn read_years(file: &[u8]) -> Result<Sections, Refusal>
    ensures { reading_in result ≡ read_years file.now }
{
    if let Err(rule) = count_fault(file, 0, 1, names::MOST_YEARS) {
        return Err(Refusal { rule, at: 0 });
    }
    let n = count_at(file, 0) as usize;
    let next = names::COUNT_WIDTH + n * names::YEAR_WIDTH;
    years(records_after(file, 0, next), n, names::COUNT_WIDTH)
}

// The pots, after the years. Their count tells of caps and drawn numbers as well.
pub fn read_pots(file: &[u8], past: Sections) -> Result<Sections, Refusal>
    requires { read_years file.now ≡ Accepted past }
    ensures { reading_in result ≡ read_pots file.now }
{
    let at = past.pots_at;
    if let Err(rule) = pots_count_fault(file, at) {
        return Err(Refusal { rule, at });
    }
    let count = count_at(file, at);
    let gained = pot::gained_told(count);
    let n = pot::pots_told(count) as usize;
    let start = at + names::COUNT_WIDTH;
    let next = start + pot::place(past.years, gained, n);
    let done = Sections {
        gained,
        pots: n,
        technologies_at: next,
        ..past
    };
    pots(records_after(file, at, next), start, done)
}

// The technologies, after the pots.
pub fn read_technologies(file: &[u8], past: Sections) -> Result<Sections, Refusal>
    requires { read_pots file.now ≡ Accepted past }
    ensures { reading_in result ≡ read_techs file.now }
{
    let at = past.technologies_at;
    if let Err(rule) = count_fault(file, at, 1, names::MOST_TECHS) {
        return Err(Refusal { rule, at });
    }
    let n = count_at(file, at) as usize;
    let start = at + names::COUNT_WIDTH;
    let next = start + technology::place(past.years, n);
    let done = Sections {
        technologies: n,
        applications_at: next,
        ..past
    };
    technologies(records_after(file, at, next), start, done)
}

// The applications, after the technologies. They are held to the years.
pub fn read_applications(file: &[u8], past: Sections) -> Result<Sections, Refusal>
    requires { read_techs file.now ≡ Accepted past }
    ensures { reading_in result ≡ read_apps file.now }
{
    let at = past.applications_at;
    if let Err(rule) = count_fault(file, at, 0, names::MOST_APPS) {
        return Err(Refusal { rule, at });
    }
    let n = count_at(file, at) as usize;
    let start = at + names::COUNT_WIDTH;
    let next = start + n * names::APP_WIDTH;
    let done = Sections {
        applications: n,
        bids_at: next,
        ..past
    };
    applications(
        parts::years(file, past),
        records_after(file, at, next),
        start,
        done,
    )
}

// The bids, after the applications. They are held to the years, the technologies and the applications.
pub fn read_bids(file: &[u8], past: Sections) -> Result<Sections, Refusal>
    requires { read_apps file.now ≡ Accepted past }
    ensures { reading_in result ≡ read_bids file.now }
{
    let at = past.bids_at;
    if let Err(rule) = count_fault(file, at, 0, names::MOST_BIDS) {
        return Err(Refusal { rule, at });
    }
    let n = count_at(file, at) as usize;
    let start = at + names::COUNT_WIDTH;
    let next = start + n * names::BID_WIDTH;
    let done = Sections { bids: n, ..past };
    bids::bids(file, records_after(file, at, next), start, done)
}
