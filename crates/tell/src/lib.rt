// What is told of a round: each pot is cleared on its own sheet, and what is told of it goes to the places of its applications and bids.
#![tactic(auto)]

ghost use Rattle.std.specs.Prelude.{◌≡◌, ℕ, ◌+◌, ◌≤◌, ◌<◌, Bool, length};
ghost use Rattle.rules.specs.Names.{most_pots};
ghost use Rattle.rules.specs.File.{Round};
ghost use Rattle.rows.specs.Rows.{round_in};
ghost use Rattle.fill.specs.Fill.{Blank};
ghost use Rattle.result.specs.Tells.{Tells};
ghost use Rattle.tell.specs.ToldTo.{merged, ToldTo, told_with};

use auction::Cleared;
use names::{APPS, BIDS, MOST_DELIVERIES, MOST_POTS, YEARS};
use result::{PotTold, Tellings};
use rows::RoundFile;
use rules::Told;
use sheet::{Cells, Sheet};

// The first n places anew, where they are the pot's own.
fn merge_own<T: Copy, F: Fn(usize) -> bool>(told: &mut [T], mine: &[T], n: usize, is_own: F)
    requires within { (n ≤ length told.old) × (n ≤ length mine.now) }
    requires asked { (a : ℕ) → a < n → F.pre is_own a }
    ensures { (own : ℕ → Bool) (d : T) → ((a : ℕ) (b : Bool) → a < n → F.post is_own a b → b ≡ own a) → told.new ≡ merged own mine.now told.old d n }
{
    for a in 0..n {
        if is_own(a) {
            told[a] = mine[a];
        }
    }
}

// What is told of the round, with the clearing of pot p added, whose sheet this is: an application is the pot's where it is in its first test, a bid where it is
// in its auction.
fn with_cleared(mut t: Tellings, c: Cleared, sheet: &Sheet, p: usize) -> Tellings
    requires { p < most_pots }
    ensures { result ≡ told_with sheet.now.cells.now sheet.now.size p c t }
{
    let Cleared {
        outcome,
        prices,
        totals,
        apps,
        reasons,
    } = c;
    t.pots[p] = PotTold {
        outcome: outcome.number(),
        prices,
        totals,
    };
    merge_own(
        &mut t.apps,
        &apps,
        sheet.size.applications,
        |a| sheet::in_test(sheet.cells, a),
    );
    merge_own(
        &mut t.reasons,
        &reasons,
        sheet.size.bids,
        |k| sheet::in_auction(sheet.cells, k),
    );
    t
}

// Nothing is told yet.
fn nothing() -> Tellings
    ensures { (R : Round) → ToldTo R 0 result }
{
    let pot = PotTold {
        outcome: 0,
        prices: [0; MOST_DELIVERIES],
        totals: [0; YEARS],
    };
    let app = Told {
        won: 0,
        bid: 0,
        reason: names::NO_REASON,
        paid: 0,
    };
    Tellings {
        pots: [pot; MOST_POTS as usize],
        apps: [app; APPS],
        reasons: [names::NO_REASON; BIDS],
    }
}

// The numbers of a sheet to be filled.
fn blank_cells() -> Cells
    ensures { Blank result }
{
    [0; sheet::LENGTH]
}

// Pot p is cleared on its sheet, and told.
fn with_pot(t: Tellings, round: &RoundFile, p: usize) -> Tellings
    requires { p < round.now.sections.pots }
    ensures { ToldTo (round_in round.now.file.now round.now.sections) p t
        → ToldTo (round_in round.now.file.now round.now.sections) (p + 1) result }
{
    let mut cells = blank_cells();
    let size = fill::fill(round, p, &mut cells);
    let sheet = Sheet {
        cells: &cells,
        size,
    };
    let c = auction::clear_pot(&sheet);
    with_cleared(t, c, &sheet, p)
}

// What is told of the round that an accepted file and its sections show.
pub fn tell(round: &RoundFile) -> Tellings
    ensures { Tells (round_in round.now.file.now round.now.sections) result }
{
    let mut t = nothing();
    for p in 0..round.sections.pots {
        t = with_pot(t, round, p);
    }
    t
}
