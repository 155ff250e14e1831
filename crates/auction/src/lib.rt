// The clearing of one pot: the first test, the auction, and what is told of the pot, of its applications and of its bids. specs/Cleared.antt says what it is in
// the words of the rules, specs/Numbers.antt what each function computes.
#![tactic(auto)]

ghost use Rattle.std.specs.Prelude.{◌≡◌, ◌≤◌, ◌<◌};
ghost use Rattle.rules.specs.Names.{most_years};
ghost use Rattle.sheet.specs.Sheet.{pot_in};
ghost use Rattle.auction.specs.Outcomes.{number_of};
ghost use Rattle.auction.specs.Cleared.{EndedAs, ClearedAs};
ghost use Rattle.auction.specs.Numbers.{reason_by, reasons_of, automatics_of, winning_of, Known, AllKnown, told_by, apps_of, flat_of, sold_of, money_of};

use names::{APPS, BIDS, MOST_DELIVERIES, YEARS};
use pot::PotState;
use rules::Told;
use sheet::{COLUMNS, Sheet, Size};

// "First test, then the auction": how a pot ends, each outcome with its number in the result.
#[derive(Clone, Copy, PartialEq, Eq)]
pub enum Outcome {
    Administrative = 0,
    Auctioned = 1,
    TooWide = 2,
}

impl Outcome {
    pub fn number(self) -> u64
        ensures { result ≡ number_of self }
    {
        self as u64
    }
}

// What is told of a pot: the outcome, the clearing price of each delivery year, the total of each year; of each application; and the reason of each bid.
#[derive(Clone, Copy)]
pub struct Cleared {
    pub outcome: Outcome,
    pub prices: [u64; MOST_DELIVERIES],
    pub totals: [u64; YEARS],
    pub apps: [Told; APPS],
    pub reasons: [u64; BIDS],
}

// With what an application won: at its administrative price, or with its bid of this number; or that it lost.
#[derive(Clone, Copy)]
enum Winning {
    Lost,
    AtAdmin,
    Bid { number: usize },
}

// How a pot ended: its outcome, clearing prices and row of totals; the mark of each bid and which applications won, from which the reasons are told; with what
// each application won; and the automatic reason of one without a sealed bid.
#[derive(Clone, Copy)]
struct End {
    outcome: Outcome,
    prices: [u64; MOST_DELIVERIES],
    totals: [u64; COLUMNS],
    marks: [u16; BIDS],
    won: [bool; APPS],
    winning: [Winning; APPS],
    automatic: u64,
}

// The reason of a bid by its mark: where it was not looked at, 4 if its application won and else 5.
fn reason(mark: u16, won: bool) -> u64
    ensures { result ≡ reason_by mark won }
{
    if mark != totals::marks::FRESH {
        u64::from(mark)
    } else if won {
        names::UNLOOKED_WON
    } else {
        names::UNLOOKED_ELSE
    }
}

// The reasons of the bids of the auction, by their numbers.
fn reasons(sheet: &Sheet, marks: [u16; BIDS], won: [bool; APPS]) -> [u64; BIDS]
    ensures { result ≡ reasons_of sheet.now.cells.now marks won sheet.now.size.entered }
{
    let mut out = [names::NO_REASON; BIDS];
    for j in 0..sheet.size.entered {
        let k = sheet::entrant(sheet.cells, j);
        let a = sheet::app(sheet.cells, k);
        out[k] = reason(marks[k], won[a]);
    }
    out
}

// The winning bid of each application.
fn winning_bids(sheet: &Sheet, marks: [u16; BIDS]) -> [Winning; APPS]
    ensures { result ≡ winning_of sheet.now.cells.now marks sheet.now.size.bids }
{
    let mut out = [Winning::Lost; APPS];
    for k in 0..sheet.size.bids {
        if marks[k] == totals::marks::WON {
            let a = sheet::app(sheet.cells, k);
            out[a] = Winning::Bid { number: k };
        }
    }
    out
}

// The automatic reasons of the applications: none for those that have a bid in the pot, and `why` for the others.
fn automatics(sheet: &Sheet, why: u64) -> [u64; APPS]
    ensures { result ≡ automatics_of sheet.now.cells.now why sheet.now.size.entered }
{
    let mut out = [why; APPS];
    for j in 0..sheet.size.entered {
        let a = sheet::app(sheet.cells, sheet::entrant(sheet.cells, j));
        out[a] = names::NO_REASON;
    }
    out
}

// What is told of application a, which won with w or lost, and whose automatic reason is `why`: with a bid it is paid its year's clearing price, capped.
fn told(sheet: &Sheet, prices: [u64; MOST_DELIVERIES], a: usize, w: Winning, why: u64) -> Told
    requires { (a < sheet.now.size.applications) × Known sheet.now.size w }
    ensures { result ≡ told_by sheet.now.cells.now prices a w why }
{
    match w {
        Winning::Bid { number } => {
            let d = sheet::year(sheet.cells, number);
            Told {
                won: 1,
                bid: number as u64,
                reason: why,
                paid: value::capped(prices[d], sheet::admin(sheet.cells, number)),
            }
        }
        Winning::AtAdmin => Told {
            won: 1,
            bid: names::NO_BID,
            reason: why,
            paid: sheet::admin_price(sheet.cells, a),
        },
        Winning::Lost => Told {
            won: 0,
            bid: names::NO_BID,
            reason: why,
            paid: 0,
        },
    }
}

// What is told of the applications, from what each won with and their automatic reasons.
fn apps(
    sheet: &Sheet,
    prices: [u64; MOST_DELIVERIES],
    winning: [Winning; APPS],
    automatics: [u64; APPS],
) -> [Told; APPS]
    requires { AllKnown sheet.now.size winning }
    ensures { result ≡ apps_of sheet.now.cells.now prices winning automatics sheet.now.size.applications }
{
    let nothing = Told {
        won: 0,
        bid: 0,
        reason: 0,
        paid: 0,
    };
    let mut out = [nothing; APPS];
    for a in 0..sheet.size.applications {
        out[a] = told(sheet, prices, a, winning[a], automatics[a]);
    }
    out
}

// Outcomes 0 and 2: no price, one mark for all bids, which is also the reason of applications without one, and all applications won with w, or lost.
fn flat(outcome: Outcome, totals: [u64; COLUMNS], mark: u16, w: Winning) -> End
    ensures { result ≡ flat_of outcome totals mark w }
{
    End {
        outcome,
        prices: [names::NO_PRICE; MOST_DELIVERIES],
        totals,
        marks: [mark; BIDS],
        won: [false; APPS],
        winning: [w; APPS],
        automatic: u64::from(mark),
    }
}

// Outcome 1, from the state in which the auction ended.
fn sold(sheet: &Sheet, s: PotState) -> End
    ensures { result ≡ sold_of sheet.now.cells.now sheet.now.size s }
{
    let PotState {
        prices,
        totals,
        marks,
        won,
        ..
    } = s;
    let winning = winning_bids(sheet, marks);
    End {
        outcome: Outcome::Auctioned,
        prices,
        totals,
        marks,
        won,
        winning,
        automatic: names::BECAUSE_SILENT,
    }
}

// The first test, and where it does not fit the auction.
fn ended(sheet: &Sheet) -> End
    ensures { EndedAs sheet.now.cells.now sheet.now.size result }
{
    let first = totals::admin_totals(sheet);
    if totals::within(sheet.cells, sheet.size, first) {
        return flat(
            Outcome::Administrative,
            first,
            names::BECAUSE_ADMINISTRATIVE as u16,
            Winning::AtAdmin,
        );
    }
    let s = pot::auction(sheet);
    if s.wide {
        return flat(
            Outcome::TooWide,
            [0; COLUMNS],
            names::BECAUSE_TOO_WIDE as u16,
            Winning::Lost,
        );
    }
    sold(sheet, s)
}

// What is told of a row of totals: the money of the years, and nothing of a column after them.
fn money(of: Size, row: [u64; COLUMNS]) -> [u64; YEARS]
    requires { of.years ≤ most_years }
    ensures { result ≡ money_of row of.years }
{
    let mut out = [0; YEARS];
    out[..of.years].copy_from_slice(&row[..of.years]);
    out
}

// The clearing of the pot that a sheet shows: it ends, and what is told of its applications and bids is told from how it ended, whatever the outcome.
pub fn clear_pot(sheet: &Sheet) -> Cleared
    ensures { ClearedAs sheet.now.size (pot_in sheet.now.cells.now sheet.now.size) result }
{
    let End {
        outcome,
        prices,
        totals,
        marks,
        won,
        winning,
        automatic,
    } = ended(sheet);
    let automatics = automatics(sheet, automatic);
    let apps = apps(sheet, prices, winning, automatics);
    let totals = money(sheet.size, totals);
    let reasons = reasons(sheet, marks, won);
    Cleared {
        outcome,
        prices,
        totals,
        apps,
        reasons,
    }
}
