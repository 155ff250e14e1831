// The count or record that stands at an offset of a refused file. The counts before the fault are right, and they say where each section
// stands; a count that the file does not have is 0.
ghost use Rattle.std.specs.Prelude.{◌≡◌, ◌+◌, ◌*◌, ◌<◌, min};
ghost use Rattle.rules.specs.Names.{count_width};
ghost use Rattle.layout.specs.Layout.{beyond};

use layout::{pot, technology};
use places::{count, on};
use rules::{Refusal, Rule};
use std::fmt;

// `bid 6`, `the count of bids`, or the file.
#[derive(Drop)]
pub enum Whose {
    Record { one: &'static str, number: usize },
    Count { many: &'static str },
    File,
}

impl fmt::Display for Whose {
    fn fmt<W: fmt::Write>(&self, f: &mut fmt::Formatter<W>) -> fmt::Result {
        match self {
            Whose::Record { one, number } => write!(f, "{one} {number}"),
            Whose::Count { many } => write!(f, "the count of {many}"),
            Whose::File => write!(f, "the file"),
        }
    }
}

impl Whose {
    // What is refused.
    pub fn of(file: &[u8], refusal: Refusal) -> Self {
        match refusal.rule {
            Rule::BytesAfter => Self::File,
            _ => record(file, refusal.at),
        }
    }
}

// The place after a section of n records, whose count is at `at`.
pub fn after(at: usize, n: usize, width: usize) -> usize
    requires { (n < 65536) × (width < 1000000) }
    ensures { result ≡ min (min (at + count_width) beyond + n * width) beyond }
{
    on(on(at, names::COUNT_WIDTH), n * width)
}

// What starts at `at`, of a section whose count is at `start`. No width is 0 where a record is at fault, since the file then has a year.
fn told(start: usize, at: usize, width: usize, one: &'static str, many: &'static str) -> Whose {
    let first = on(start, names::COUNT_WIDTH);
    if at < first {
        return Whose::Count { many };
    }
    let number = (at - first).checked_div(width).unwrap_or(0);
    Whose::Record { one, number }
}

fn record(file: &[u8], at: usize) -> Whose {
    let years = count(file, 0);
    let pots_at = after(0, years, names::YEAR_WIDTH);
    if at < pots_at {
        return told(0, at, names::YEAR_WIDTH, "year", "years");
    }
    let counted = count(file, pots_at) as u64;
    let pot_width = pot::width(years, pot::gained_told(counted));
    let technologies_at = after(pots_at, pot::pots_told(counted) as usize, pot_width);
    if at < technologies_at {
        return told(pots_at, at, pot_width, "pot", "pots");
    }
    let technology_width = technology::width(years);
    let applications_at = after(
        technologies_at,
        count(file, technologies_at),
        technology_width,
    );
    if at < applications_at {
        return told(
            technologies_at,
            at,
            technology_width,
            "technology",
            "technologies",
        );
    }
    offer(file, applications_at, at)
}

// An application or a bid, where the applications' count is at `applications_at`.
fn offer(file: &[u8], applications_at: usize, at: usize) -> Whose {
    let bids_at = after(
        applications_at,
        count(file, applications_at),
        names::APP_WIDTH,
    );
    if at < bids_at {
        return told(
            applications_at,
            at,
            names::APP_WIDTH,
            "application",
            "applications",
        );
    }
    told(bids_at, at, names::BID_WIDTH, "bid", "bids")
}
