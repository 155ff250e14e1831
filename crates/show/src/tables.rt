// The five tables of an accepted file, each over the part of the file that its section occupies.
ghost use Rattle.rules.specs.Names.{pot_width, tech_width};
ghost use Rattle.laws_reading.specs.Reading.{GainedTold};
ghost use Rattle.layout.specs.Layout.{Room};

use layout::kind::Kind;
use layout::pot::Pots;
use layout::technology::Technologies;
use layout::{application, bid, parts, year};
use rows::RoundFile;
use std::io;
use text::{factor, hundredths, money, thousandths};

fn years(out: &impl Print, round: &RoundFile) -> io::Result<()> {
    let recs = parts::years(round.file, round.sections);
    println!(out; "years\n  year  days  kind       TLM")?;
    for y in 0..round.sections.years {
        let days = year::days(recs, y);
        let kind = if year::known_kind(recs, y) == Ok(Kind::Delivery) {
            "delivery"
        } else {
            "valuation"
        };
        println!(out;
            "  {y}     {days}   {kind:<9}  {}",
            factor(year::tlm(recs, y))
        )?;
    }
    Ok(())
}

// Its budgets; in a file with caps its cap, and after that in one with drawn numbers its drawn number.
fn pot_line(out: &impl Print, pots: &Pots, p: usize) -> io::Result<()>
    requires { Room pots.now.recs.now (pot_width pots.now.years pots.now.gained) p × GainedTold pots.now.gained }
{
    print!(out; "  pot {p}: budgets")?;
    for y in 0..pots.years {
        let comma = if y > 0 { "," } else { "" };
        print!(out; "{comma} ")?;
        money(out, pots.budget(p, y), 0)?;
    }
    if pots.gained > 0 {
        match pots.cap(p) {
            names::NO_CAP => print!(out; "; cap none")?,
            cap => print!(out; "; cap {} MW", hundredths(cap))?,
        }
    }
    if pots.gained > names::CAP_WIDTH {
        print!(out; "; drawn number {}", pots.drawn(p))?;
    }
    println!(out;)
}

fn pots(out: &impl Print, round: &RoundFile) -> io::Result<()> {
    let pots = parts::pots(round.file, round.sections);
    println!(out; "pots")?;
    for p in 0..round.sections.pots {
        pot_line(out, &pots, p)?;
    }
    Ok(())
}

// Technology t, a line for each year.
fn technology_lines(out: &impl Print, of: &Technologies, t: usize) -> io::Result<()>
    requires { Room of.now.recs.now (tech_width of.now.years) t }
{
    let pot = of.pot(t);
    let rqm = of.rqm(t);
    println!(out; "  technology {t}: pot {pot}, RQM {}", factor(rqm))?;
    for y in 0..of.years {
        let admin = thousandths(of.admin(t, y));
        let reference = thousandths(of.reference(t, y));
        let load = factor(of.load(t, y));
        println!(out;
            "    year {y}: administrative {admin}, reference {reference}, load factor {load}"
        )?;
    }
    Ok(())
}

fn technologies(out: &impl Print, round: &RoundFile) -> io::Result<()> {
    let technologies = parts::technologies(round.file, round.sections);
    println!(out; "technologies")?;
    for t in 0..round.sections.technologies {
        technology_lines(out, &technologies, t)?;
    }
    Ok(())
}

fn applications(out: &impl Print, round: &RoundFile) -> io::Result<()> {
    let recs = parts::applications(round.file, round.sections);
    println!(out; "applications")?;
    for a in 0..round.sections.applications {
        let application::Application {
            technology,
            year,
            days,
            draw,
            capacity,
        } = application::read(recs, a);
        print!(out;
            "  application {a}: technology {technology}, year {year}, first-year days {days}, draw {draw}"
        )?;
        print!(out; ", {} MW, declared cost ", hundredths(capacity))?;
        money(out, application::declared_cost(recs, a), 0)?;
        println!(out;)?;
    }
    Ok(())
}

fn bids(out: &impl Print, round: &RoundFile) -> io::Result<()> {
    let recs = parts::bids(round.file, round.sections);
    println!(out; "bids")?;
    for k in 0..round.sections.bids {
        let bid::Bid {
            application,
            year,
            days,
            capacity,
            price,
        } = bid::read(recs, k);
        print!(out; "  bid {k}: application {application}, year {year}, first-year days {days}")?;
        println!(out; ", {} MW, at {}", hundredths(capacity), thousandths(price))?;
    }
    Ok(())
}

pub fn print(out: &impl Print, round: &RoundFile) -> io::Result<()> {
    years(out, round)?;
    pots(out, round)?;
    technologies(out, round)?;
    applications(out, round)?;
    bids(out, round)
}
