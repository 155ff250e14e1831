// What the combinations of a tie are read off: the bids that remain, as a list, with "one binary place for each remaining bid, the lowest draw highest"; what the
// present winners count; and what the bids count. A trial of some of them changes the clearing price of the years in which these start, and of no other; so
// the totals of the winners are taken once for each set of delivery years, and a combination adds what its own bids cost, which a table has for each part of
// its number. specs/Combinations.antt says what each function computes.
#![tactic(auto)]

pub mod places;
pub mod tables;

use names::WIDEST_TIE;

// So many bids; their numbers, in the order of the file; the binary place and the start year of each.
#[derive(Clone, Copy)]
pub struct Tied {
    pub count: usize,
    pub bids: [usize; WIDEST_TIE],
    pub ranks: [u32; WIDEST_TIE],
    pub starts: [u32; WIDEST_TIE],
}
