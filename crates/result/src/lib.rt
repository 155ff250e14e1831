// The result: what is told of a round, as counts and records in bytes, each section through its own part of the lent buffer.
#![tactic(auto)]

ghost use Rattle.std.specs.Prelude.{◌≡◌, ◌+◌, ◌*◌, ◌≤◌, length};
ghost use Rattle.rules.specs.Names.{count_width};
ghost use Rattle.rules.specs.Bytes.{onto};
ghost use Rattle.rules.specs.File.{Round};
ghost use Rattle.rules.specs.Result.{app_bytes, needed, result_bytes};
ghost use Rattle.store.specs.Filled.{Filled};
ghost use Rattle.result.specs.Tells.{InRange, Counted, Tells};
ghost use Rattle.result.specs.ToldBytes.{app_size, reason_size, pot_size, result_size, largest_pots, largest_result};
ghost use Rattle.result.specs.ToldBytes.{pot_bytes_told, pots_told, apps_told, bids_told, round_told};

use names::{COUNT_WIDTH, MOST_APPS, MOST_BIDS, MOST_DELIVERIES, MOST_POTS, YEARS};
use rules::{Sections, Told};
use store::{put, put_all, records};

// The sizes in bytes of the result's fields: of a pot, of an application, and the reason of a bid as of an application.
const OUTCOME_SIZE: usize = 2;

const PRICE_SIZE: usize = 4;

const TOTAL_SIZE: usize = 8;

const WON_SIZE: usize = 2;

const BID_SIZE: usize = 2;

const REASON_SIZE: usize = 2;

const PAID_SIZE: usize = 4;

// Of the record of an application.
const APP_SIZE: usize = WON_SIZE + BID_SIZE + REASON_SIZE + PAID_SIZE;

// Where the bid, the reason and the price paid stand in it.
const BID_AT: usize = WON_SIZE;

const REASON_AT: usize = BID_AT + BID_SIZE;

const PAID_AT: usize = REASON_AT + REASON_SIZE;

// What is told of a pot: the outcome, the clearing price of each delivery year, the total of each year.
#[derive(Clone, Copy)]
pub struct PotTold {
    pub outcome: u64,
    pub prices: [u64; MOST_DELIVERIES],
    pub totals: [u64; YEARS],
}

// What is told of a round before it is bytes: of each pot, of each application, and the reason of each bid.
#[derive(Clone, Copy)]
pub struct Tellings {
    pub pots: [PotTold; MOST_POTS as usize],
    pub apps: [Told; MOST_APPS as usize],
    pub reasons: [u64; MOST_BIDS as usize],
}

// The sections of a round, whose counts are seen to be in their ranges before anything is told of it.
#[derive(Clone, Copy)]
pub struct Counts {
    pub sections: Sections,
    ghost in_range: { InRange sections },
}

impl Counts {
    // How many bytes the record of a pot takes.
    fn pot_size(self) -> usize
        ensures { result ≡ pot_size self.sections }
    {
        OUTCOME_SIZE + PRICE_SIZE * self.sections.deliveries + TOTAL_SIZE * self.sections.years
    }

    // How many bytes the records of the pots take.
    fn pots_size(self) -> usize
        ensures sized { result ≡ self.sections.pots * pot_size self.sections }
        ensures small { result ≤ largest_pots }
    {
        self.sections.pots * self.pot_size()
    }
}

// The record of a pot: outcome, clearing price for each delivery year, total for each year.
fn pot_record(s: &mut [u8], told: PotTold, counts: Counts)
    requires { pot_size counts.sections ≤ length s.old }
    ensures { Filled (pot_bytes_told counts.sections told) s.old s.new }
{
    put(s, OUTCOME_SIZE, told.outcome);
    let d = counts.sections.deliveries;
    put_all(&mut s[OUTCOME_SIZE..], PRICE_SIZE, &told.prices, 0, d);
    let at = OUTCOME_SIZE + PRICE_SIZE * d;
    put_all(
        &mut s[at..],
        TOTAL_SIZE,
        &told.totals,
        0,
        counts.sections.years,
    );
}

// The section of the pots: their count, then their records. Here and below a local has what is read of `t`: no array is copied then, where one is if `t` is lent.
fn pots(s: &mut [u8], t: Tellings, counts: Counts)
    requires { count_width + counts.sections.pots * pot_size counts.sections ≤ length s.old }
    ensures { Filled (pots_told t counts.sections) s.old s.new }
{
    put(s, COUNT_WIDTH, counts.sections.pots as u64);
    let pots = t.pots;
    records(
        &mut s[COUNT_WIDTH..],
        counts.pot_size(),
        counts.sections.pots,
        |p, part| pot_record(part, pots[p], counts),
    );
}

// The record of an application: won, bid, automatic reason, price paid.
fn application_record(s: &mut [u8], told: Told)
    requires { app_size ≤ length s.old }
    ensures { Filled (app_bytes told) s.old s.new }
{
    put(s, WON_SIZE, told.won);
    put(&mut s[BID_AT..], BID_SIZE, told.bid);
    put(&mut s[REASON_AT..], REASON_SIZE, told.reason);
    put(&mut s[PAID_AT..], PAID_SIZE, told.paid);
}

// The section of the applications: their count, then their records.
fn applications(s: &mut [u8], t: Tellings, counts: Counts)
    requires { count_width + counts.sections.applications * app_size ≤ length s.old }
    ensures { Filled (apps_told t counts.sections) s.old s.new }
{
    put(s, COUNT_WIDTH, counts.sections.applications as u64);
    let apps = t.apps;
    records(
        &mut s[COUNT_WIDTH..],
        APP_SIZE,
        counts.sections.applications,
        |a, part| application_record(part, apps[a]),
    );
}

// The section of the bids: their count, then the reason of each.
fn bids(s: &mut [u8], t: Tellings, counts: Counts)
    requires { count_width + counts.sections.bids * reason_size ≤ length s.old }
    ensures { Filled (bids_told t counts.sections) s.old s.new }
{
    put(s, COUNT_WIDTH, counts.sections.bids as u64);
    let reasons = t.reasons;
    put_all(
        &mut s[COUNT_WIDTH..],
        REASON_SIZE,
        &reasons,
        0,
        counts.sections.bids,
    );
}

// How many bytes the result needs.
pub fn needed(sections: Sections) -> usize
    requires { InRange sections }
    ensures sized { result ≡ result_size sections }
    ensures small { result ≤ largest_result }
    ensures meant { (R : Round) → Counted R sections → result ≡ needed R }
{
    3 * COUNT_WIDTH
        + Counts { sections }.pots_size()
        + APP_SIZE * sections.applications
        + REASON_SIZE * sections.bids
}

// The result over the start of the lent buffer: the three sections, each through its own part.
pub fn write(t: Tellings, sections: Sections, res: &mut [u8])
    requires ready { InRange sections }
    requires room { result_size sections ≤ length res.old }
    ensures told { res.new ≡ onto (round_told t sections) res.old }
    ensures meant { (R : Round) → Counted R sections → Tells R t → res.new ≡ onto (result_bytes R) res.old }
{
    let counts = Counts { sections };
    let second = COUNT_WIDTH + counts.pots_size();
    let third = second + (COUNT_WIDTH + sections.applications * APP_SIZE);
    let end = third + (COUNT_WIDTH + sections.bids * REASON_SIZE);
    pots(&mut res[..second], t, counts);
    applications(&mut res[second..third], t, counts);
    bids(&mut res[third..end], t, counts);
}
