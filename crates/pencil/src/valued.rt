// One bid valued line by line. The factors and the lines are those that the clearing values by: `rows::factors` and `value::Valuation`.
ghost use Rattle.std.specs.Prelude.{◌<◌, ◌≤◌};
ghost use Rattle.rules.specs.Names.{highest_price};
ghost use Rattle.text.specs.Figure.{most_places, Whole};
ghost use Rattle.rows.specs.Factors.{InScale};

use rows::RoundFile;
use rows::factors::Factors;
use std::io;
use text::figure::{Figure, one_column};
use value::Valuation;
use value::wide::Wide;

// The place from which a figure is printed: the longest number then fills its line. An amount starts a place earlier, since a pound sign is one
// character of two bytes.
const NUMBER_AT: usize = 5;

const MONEY_AT: usize = 4;

// A line: a name, as wide as every name, and a figure with what stands before it from a place on.
fn figure(out: &impl Print, name: &str, of: Figure, from: usize) -> io::Result<()>
    requires { Whole of × (from ≤ most_places) }
{
    out.write_all(name.as_bytes())?;
    out.write_all(&of.places[from..])?;
    out.write_all(b"\n")
}

fn wide(out: &impl Print, name: &str, n: Wide) -> io::Result<()> {
    figure(out, name, Figure::number(n), NUMBER_AT)
}

fn line(out: &impl Print, name: &str, n: u64) -> io::Result<()> {
    wide(out, name, one_column(n))
}

// A number of pence, in pounds.
fn money(out: &impl Print, name: &str, pence: u64) -> io::Result<()> {
    let amount = Figure::money(
        pence / names::PENCE_PER_POUND,
        pence % names::PENCE_PER_POUND,
    );
    figure(out, name, amount, MONEY_AT)
}

// What is multiplied.
fn factors(out: &impl Print, of: Factors) -> io::Result<()> {
    line(out, "  load factor               ", of.load)?;
    line(out, "  hours                     ", of.hours)?;
    line(out, "  capacity                  ", of.capacity)?;
    line(out, "  1 - TLM                   ", of.kept)?;
    line(out, "  RQM                       ", of.rqm)
}

// What is divided, one scale a line.
fn lines(out: &impl Print, of: Valuation) -> io::Result<()> {
    wide(out, "  product                   ", of.product)?;
    wide(out, "  over 10: price            ", of.by_price)?;
    wide(out, "  over 10,000: load factor  ", of.by_load)?;
    wide(out, "  over 100: capacity        ", of.by_capacity)?;
    line(out, "  over 10,000: 1 - TLM      ", of.by_tlm)?;
    line(out, "  over 10,000: RQM          ", of.by_rqm)?;
    money(out, "  value                     ", of.by_rqm)
}

// A bid of this price, in a year of these factors.
fn year(out: &impl Print, price: u64, of: Factors) -> io::Result<()>
    requires { (price ≤ highest_price) × InScale of }
{
    let worked = Valuation::of(price, of.reference, of.energy(), of.share());
    line(out, "  price                     ", price)?;
    line(out, "  reference                 ", of.reference)?;
    line(out, "  price less reference      ", worked.margin)?;
    factors(out, of)?;
    lines(out, worked)
}

// Bid k.
pub fn bid(out: &impl Print, round: &RoundFile, k: usize) -> io::Result<()>
    requires { k < round.now.sections.bids }
{
    let bid = round.bid(k);
    let its = round.application(bid.application);
    println!(out; "bid {k}")?;
    for y in 0..round.sections.years {
        println!(out; "year {y}")?;
        year(out, bid.price, Factors::of(round, its.technology, bid, y))?;
    }
    Ok(())
}
