// The sheet of one pot, filled from the sections of an accepted file. The numbers that are lent are blank.
#![tactic(auto)]

ghost use Rattle.std.specs.Prelude.{◌≡◌, ◌≤◌, ◌<◌};
ghost use Rattle.rules.specs.Names.{most_bids, most_apps, long_year, largest_capacity};
ghost use Rattle.rules.specs.Round.{pot_of};
ghost use Rattle.layout.specs.Layout.{bid_shown};
ghost use Rattle.sheet.specs.Sheet.{places, pot_in, Ready};
ghost use Rattle.rows.specs.Rows.{round_in};
ghost use Rattle.fill.specs.Fill.{Blank, BlankAdmins, BlankFrom, tech_of, RowsRight, AdminsRight, AllFigures, RowsWritten, AdminsWritten, FiguresOf};
ghost use Rattle.fill.specs.Fill.{FiguresWritten, LimitsWritten, CapWritten, DrawnWritten, Entered, size_of};

use layout::bid::Bid;
use layout::parts;
use rows::RoundFile;
use sheet::{Cells, Size};

// The rows of all bids. Those of other pots are zeros, and so are those after the last bid.
fn fill_rows(round: &RoundFile, p: usize, cells: &mut Cells)
    ensures { RowsWritten (round_in round.now.file.now round.now.sections) p cells.old cells.new }
{
    for k in 0..names::BIDS {
        let v = round.row(p, k);
        arrays::lay(cells, &v, sheet::ROWS_AT + k * sheet::ROW);
    }
}

// The administrative prices of the applications, over blank ones: those of other pots stay zeros.
fn fill_admins(round: &RoundFile, p: usize, cells: &mut Cells)
    requires { BlankAdmins cells.old }
    ensures { AdminsWritten (round_in round.now.file.now round.now.sections) p cells.old cells.new }
{
    for a in 0..names::APPS {
        if round.app_mine(p, a) {
            let own = round.at_admin_price(a);
            cells[sheet::ADMINS_AT + a] = own.price;
        }
    }
}

// The capacity and the figures of a bid, or of an application at its administrative price, at place k, in the years of the file.
fn fill_years(round: &RoundFile, bid: Bid, k: usize, cells: &mut Cells)
    requires { (bid.application < round.now.sections.applications) × (bid.days ≤ long_year) × (bid.capacity ≤ largest_capacity) × (k < places) }
    ensures { FiguresOf (round_in round.now.file.now round.now.sections) (tech_of (round_in round.now.file.now round.now.sections) (bid_shown bid)) (bid_shown bid) k cells.old cells.new }
{
    let its = round.application(bid.application);
    cells[sheet::FIGURES_AT + k * sheet::FIGURES] = bid.capacity;
    for y in 0..round.sections.years {
        let v = round.figure(its.technology, bid, y);
        arrays::lay(
            cells,
            &v,
            sheet::FIGURES_AT + k * sheet::FIGURES + sheet::CAPACITY + y * sheet::FIGURE,
        );
    }
}

// The figures of all bids, over blank ones: those of other pots, which the rows tell, stay zeros.
fn fill_figures(round: &RoundFile, p: usize, cells: &mut Cells)
    requires { RowsRight (round_in round.now.file.now round.now.sections) p most_bids cells.old × BlankFrom 0 cells.old }
    ensures { FiguresWritten (round_in round.now.file.now round.now.sections) p most_bids cells.old cells.new }
{
    for k in 0..names::BIDS {
        if sheet::in_auction(cells, k) {
            let bid = round.bid(k);
            fill_years(round, bid, k, cells);
        }
    }
}

// And those of all applications at their administrative prices, in the places after the bids'.
fn fill_admin_figures(round: &RoundFile, p: usize, cells: &mut Cells)
    requires admins_right { AdminsRight (round_in round.now.file.now round.now.sections) p most_apps cells.old }
    requires all_figures { AllFigures (round_in round.now.file.now round.now.sections) p most_bids cells.old × BlankFrom most_bids cells.old }
    ensures { FiguresWritten (round_in round.now.file.now round.now.sections) p places cells.old cells.new }
{
    for a in 0..names::APPS {
        if sheet::in_test(cells, a) {
            let own = round.at_admin_price(a);
            fill_years(round, own, names::BIDS + a, cells);
        }
    }
}

// The limits of the years: the budgets of pot p, in pence.
fn fill_limits(round: &RoundFile, p: usize, cells: &mut Cells)
    requires { p < round.now.sections.pots }
    ensures { LimitsWritten (round_in round.now.file.now round.now.sections) p cells.old cells.new }
{
    let pots = parts::pots(round.file, round.sections);
    for y in 0..pots.years {
        cells[y] = value::pence(pots.budget(p, y));
    }
}

// The cap of pot p, if it has one, as the limit after those of the years; how many limits there are then.
fn fill_cap(round: &RoundFile, p: usize, cells: &mut Cells) -> usize
    requires { p < round.now.sections.pots }
    ensures { CapWritten (round_in round.now.file.now round.now.sections) p cells.old cells.new result }
{
    let pots = parts::pots(round.file, round.sections);
    if pots.gained == 0 {
        return pots.years;
    }
    let cap = pots.cap(p);
    if cap == names::NO_CAP {
        pots.years
    } else {
        cells[pots.years] = cap;
        pots.years + 1
    }
}

// The drawn number of pot p, as one more than it is; 0 in a file without drawn numbers.
fn fill_drawn(round: &RoundFile, p: usize, cells: &mut Cells)
    requires { p < round.now.sections.pots }
    ensures { DrawnWritten (round_in round.now.file.now round.now.sections) p cells.old cells.new }
{
    let pots = parts::pots(round.file, round.sections);
    cells[sheet::DRAWN_AT] = if pots.gained <= names::CAP_WIDTH {
        0
    } else {
        pots.drawn(p) + 1
    };
}

// The bids that enter the auction, among the first m, and how many these are.
fn fill_entrants(m: usize, cells: &mut Cells) -> usize
    requires { m ≤ most_bids }
    ensures { Entered m cells.old cells.new result }
{
    let mut n = 0;
    for k in 0..m {
        if sheet::in_auction(cells, k) {
            cells[sheet::ENTRANTS_AT + n] = k as u64;
            n += 1;
        }
    }
    n
}

// The sheet of pot p: it shows the pot of the round, and is ready to be cleared.
pub fn fill(round: &RoundFile, p: usize, cells: &mut Cells) -> Size
    requires known { p < round.now.sections.pots }
    requires blank { Blank cells.old }
    ensures result_after { (pot_in cells.new result ≡ pot_of (round_in round.now.file.now round.now.sections) p) × Ready cells.new result }
    ensures value { result ≡ size_of (round_in round.now.file.now round.now.sections) result.columns result.entered }
{
    fill_rows(round, p, cells);
    fill_admins(round, p, cells);
    fill_figures(round, p, cells);
    fill_admin_figures(round, p, cells);
    fill_limits(round, p, cells);
    let columns = fill_cap(round, p, cells);
    fill_drawn(round, p, cells);
    let entered = fill_entrants(round.sections.bids, cells);
    Size {
        years: round.sections.years,
        columns,
        bids: round.sections.bids,
        applications: round.sections.applications,
        entered,
    }
}
