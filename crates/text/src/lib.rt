// Numbers, amounts of money and refusals, as the programs for people write them. Where a write fails, what stands before it is written.
#![tactic(auto)]

ghost use Rattle.std.specs.Prelude.{◌<◌};

pub mod figure;

use figure::Figure;
use std::{fmt, io};

// A number with so many decimals.
#[derive(Drop)]
pub struct Decimal {
    whole: u64,
    part: u64,
    decimals: usize,
}

impl Decimal {
    // Of a number of parts, so many of which make one.
    fn of(n: u64, parts: u64, decimals: usize) -> Self
        requires { 0 < parts }
    {
        Self {
            whole: n / parts,
            part: n % parts,
            decimals,
        }
    }
}

impl fmt::Display for Decimal {
    fn fmt<W: fmt::Write>(&self, f: &mut fmt::Formatter<W>) -> fmt::Result {
        write!(f, "{}.{:02$}", self.whole, self.part, self.decimals)
    }
}

pub fn hundredths(n: u64) -> Decimal {
    Decimal::of(n, 100, 2)
}

pub fn thousandths(n: u64) -> Decimal {
    Decimal::of(n, 1000, 3)
}

// A number of ten-thousandths.
pub fn factor(n: u64) -> Decimal {
    Decimal::of(n, 10000, 4)
}

pub fn money(out: &impl Print, pounds: u64, pence: u64) -> io::Result<()> {
    let amount = Figure::money(pounds, pence);
    out.write_all(&amount.places[amount.at..])
}

// The line of a refusal: `refused 7 at 120`.
pub fn refused(out: &impl Print, number: u64, at: usize) -> io::Result<()> {
    println!(out; "refused {number} at {at}")
}
