// Ties: several bids at one price that do not fit together. Those that do not fit alone are dropped; of those that remain the best combination is taken, or by
// a drawn number one of the best: here by a plain listing of all, in `search` with branches cut off. specs/Ties.antt says what each function computes.
#![tactic(auto)]

ghost use Rattle.std.specs.Prelude.{◌≡◌};
ghost use Rattle.rules.specs.Names.{most_bids};
ghost use Rattle.combinations.specs.Combinations.{Numbers, Placed};
ghost use Rattle.ties.specs.Ties.{combination_of, chosen_of};

pub mod alone;
pub mod best;
pub mod listing;

use combinations::Tied;
use combinations::places::member;
use listing::Answer;
use names::BIDS;

// The chosen bids, as a set; and the number that the pot's next tie is drawn by, if there is one.
#[derive(Clone, Copy)]
pub struct Choice {
    pub wins: [bool; BIDS],
    pub drawn: Option<u64>,
}

// The bids of a combination, as a set.
fn combination(tied: Tied, mask: u32) -> [bool; BIDS]
    requires { Numbers tied.bids tied.count most_bids × Placed tied }
    ensures { result ≡ combination_of tied.bids tied.ranks mask tied.count }
{
    let mut out = [false; BIDS];
    for j in 0..tied.count {
        if member(mask, tied.ranks[j]) {
            out[tied.bids[j]] = true;
        }
    }
    out
}

// What is chosen where a tie takes a combination, and what that leaves of the drawn number: "go on with the drawn number divided by m".
pub fn chosen(tied: Tied, answer: Answer, drawn: Option<u64>) -> Choice
    requires { Numbers tied.bids tied.count most_bids × Placed tied }
    ensures { result ≡ chosen_of tied answer drawn }
{
    Choice {
        wins: combination(tied, answer.mask),
        drawn: drawn.map(|number| number.checked_div(answer.ways).unwrap_or(0)),
    }
}
