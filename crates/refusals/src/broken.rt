// Which part of rule 2 the count of pots broke, and which part of rule 4 a pot: the count and the record are asked.
use super::whose::after;
use layout::pot;
use layout::pot::Pots;
use places::{count, on};

// Does the count at `at` tell of 1 to 4 pots, with "16,384 added without 32,768"? No count but the pots' has anything added.
pub fn drawn_without_caps(file: &[u8], at: usize) -> bool {
    let counted = count(file, at) as u64;
    at == after(0, count(file, 0), names::YEAR_WIDTH)
        && names::DRAWN_ADDED < counted
        && counted <= names::DRAWN_ADDED + names::MOST_POTS
}

// Is a budget of the pot whose record starts at `at` too high? It stands whole in the file, since rule 1 comes before rule 4.
pub fn budget_high(file: &[u8], at: usize) -> bool {
    let years = count(file, 0);
    let pots_at = after(0, years, names::YEAR_WIDTH);
    let gained = pot::gained_told(count(file, pots_at) as u64);
    let width = pot::width(years, gained);
    let recs = reader::part_to(file, at, on(at, width));
    let from_here = Pots {
        recs,
        years,
        gained,
    };
    recs.len() >= width && (0..years).any(|y| from_here.budget(0, y) > names::HIGHEST_BUDGET)
}
