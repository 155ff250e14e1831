// Prints, of each file on standard input, what the plain listing and the search answer of one tie: of those bids of pot 0 that have the price of bid 0, where
// none has won. The number of the combination that is taken, and m.
#![tactic(auto)]

ghost use Rattle.std.specs.Prelude.{◌≡◌};
ghost use Rattle.rules.specs.Reading.{Accepted};
ghost use Rattle.rules.specs.Refusals.{reading};

use names::{BIDS, MOST_DELIVERIES};
use rows::RoundFile;
use rules::Sections;
use sheet::Sheet;
use std::io;
use ties::listing::Answer;

// The bids of the pot at a price.
fn at_price(sheet: &Sheet, price: u64) -> [bool; BIDS] {
    let mut set = [false; BIDS];
    for k in 0..sheet.size.bids {
        set[k] = sheet::in_auction(sheet.cells, k) && sheet::price(sheet.cells, k) == price;
    }
    set
}

fn told(out: &impl Print, name: &str, answer: Answer) -> io::Result<()> {
    println!(out; "{name} {} of {}", answer.mask, answer.ways)
}

// What both answer of the tie at a price.
fn both(out: &impl Print, sheet: &Sheet, price: u64) -> io::Result<()> {
    let marks = [names::NO_REASON as u16; BIDS];
    let prices = [names::NO_PRICE; MOST_DELIVERIES];
    let base = gathering::winners::bases(sheet, marks, prices, price);
    let taken = at_price(sheet, price);
    let rest = ties::alone::rest(sheet, &base, taken, price);
    let count = arrays::count(rest, sheet.size.bids);
    if count > names::WIDEST_TIE {
        return println!(out; "too wide");
    }
    let tied = gathering::gathered(sheet, rest, count);
    let drawn = sheet::drawn(sheet.cells);
    let plain = ties::listing::listing(sheet, &base, tied, price, drawn);
    told(out, "listing", plain)?;
    let searched = search::search(sheet, &base, tied, price, drawn);
    told(out, "search", searched)
}

fn tie(out: &impl Print, file: &[u8], sections: Sections) -> io::Result<()>
    requires { reading file.now ≡ Accepted sections }
{
    if sections.pots == 0 {
        return Ok(());
    }
    let mut cells = [0u64; sheet::LENGTH];
    let size = fill::fill(&RoundFile { file, sections }, 0, &mut cells);
    let price = sheet::price(&cells, 0);
    let sheet = Sheet {
        cells: &cells,
        size,
    };
    both(out, &sheet, price)
}

fn print(out: &impl Print, file: &[u8]) -> io::Result<()> {
    match file::read(file) {
        Ok(sections) => tie(out, file, sections),
        Err(refusal) => text::refused(out, refusal.rule.number(), refusal.at),
    }
}

fn main(rt: HostRuntime) -> io::Result<()> {
    cases::each(&mut rt.reader(), |file| print(&rt, file))
}
