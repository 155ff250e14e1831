// The lines of the listing, each put over the start of a lent part, with its length for an answer.
#![tactic(auto)]

ghost use Rattle.std.specs.Prelude.{◌++◌, ◌+◌, ◌≤◌, length};
ghost use Rattle.rules.specs.Listing.{ascii, decimal, outcome_word, price_word, bid_word, pot_line, year_line, won_line, lost_line, app_line, bid_line, refusal_line};
ghost use Rattle.lines.specs.Printed.{Printed};

// A word.
fn word(s: &mut [u8], w: &[u8]) -> usize
    requires { length w.now ≤ length s.old }
    ensures { Printed w.now (length w.now) s.old s.new result }
{
    store::copy(s, w);
    w.len()
}

// A number in decimal.
fn number(s: &mut [u8], n: u64) -> usize
    requires { 20 ≤ length s.old }
    ensures { Printed (decimal n) 20 s.old s.new result }
{
    let mut digits = [0u8; 20];
    let k = io::decimal(n, &mut digits);
    store::copy(s, &digits[..k]);
    k
}

// A word, and a number after it.
fn field(s: &mut [u8], w: &[u8], n: u64) -> usize
    requires { length w.now + 20 ≤ length s.old }
    ensures { Printed (w.now ++ decimal n) (length w.now + 20) s.old s.new result }
{
    let at = word(s, w);
    at + number(&mut s[at..], n)
}

// The word of an outcome, after a blank.
fn outcome(s: &mut [u8], o: u64) -> usize
    requires { 15 ≤ length s.old }
    ensures { Printed (ascii " " ++ outcome_word o) 15 s.old s.new result }
{
    if o == names::ADMINISTRATIVE {
        return word(s, b" administrative");
    }
    if o == names::AUCTIONED {
        return word(s, b" auction");
    }
    word(s, b" tie")
}

// A clearing price, or that there is none.
fn price(s: &mut [u8], p: u64) -> usize
    requires { 27 ≤ length s.old }
    ensures { Printed (ascii " price " ++ price_word p) 27 s.old s.new result }
{
    if p == names::NO_PRICE {
        return word(s, b" price -");
    }
    field(s, b" price ", p)
}

// The bid that won, or that there is none.
fn bid(s: &mut [u8], b: u64) -> usize
    requires { 25 ≤ length s.old }
    ensures { Printed (ascii " bid " ++ bid_word b) 25 s.old s.new result }
{
    if b == names::NO_BID {
        return word(s, b" bid -");
    }
    field(s, b" bid ", b)
}

// `pot 0 auction`
pub fn pot_line(s: &mut [u8], p: u64, o: u64) -> usize
    requires { 40 ≤ length s.old }
    ensures { Printed (pot_line p o) 40 s.old s.new result }
{
    let a = field(s, b"pot ", p);
    let b = a + outcome(&mut s[a..], o);
    b + word(&mut s[b..], b"\n")
}

// `year 0 price 4000 total 35040`
pub fn year_line(s: &mut [u8], y: u64, p: u64, t: u64) -> usize
    requires { 80 ≤ length s.old }
    ensures { Printed (year_line y p t) 80 s.old s.new result }
{
    let a = field(s, b"year ", y);
    let b = a + price(&mut s[a..], p);
    let c = b + field(&mut s[b..], b" total ", t);
    c + word(&mut s[c..], b"\n")
}

// `application 0 won 4000 bid 0`
fn won_line(s: &mut [u8], a: u64, paid: u64, b: u64) -> usize
    requires { 83 ≤ length s.old }
    ensures { Printed (won_line a paid b) 83 s.old s.new result }
{
    let e = field(s, b"application ", a);
    let f = e + field(&mut s[e..], b" won ", paid);
    let g = f + bid(&mut s[f..], b);
    g + word(&mut s[g..], b"\n")
}

// `application 1 lost`
fn lost_line(s: &mut [u8], a: u64) -> usize
    requires { 38 ≤ length s.old }
    ensures { Printed (lost_line a) 38 s.old s.new result }
{
    let e = field(s, b"application ", a);
    e + word(&mut s[e..], b" lost\n")
}

// An application's line: 0 stands for lost.
pub fn application_line(s: &mut [u8], a: u64, won: u64, paid: u64, b: u64) -> usize
    requires { 83 ≤ length s.old }
    ensures { Printed (app_line a won paid b) 83 s.old s.new result }
{
    if won == 0 {
        return lost_line(s, a);
    }
    won_line(s, a, paid, b)
}

// `bid 0 reason 1`
pub fn bid_line(s: &mut [u8], k: u64, reason: u64) -> usize
    requires { 53 ≤ length s.old }
    ensures { Printed (bid_line k reason) 53 s.old s.new result }
{
    let a = field(s, b"bid ", k);
    let b = a + field(&mut s[a..], b" reason ", reason);
    b + word(&mut s[b..], b"\n")
}

// `refused 7 at 120`
pub fn refusal_line(s: &mut [u8], number: u64, at: u64) -> usize
    requires { 53 ≤ length s.old }
    ensures { Printed (refusal_line number at) 53 s.old s.new result }
{
    let a = field(s, b"refused ", number);
    let b = a + field(&mut s[a..], b" at ", at);
    b + word(&mut s[b..], b"\n")
}
