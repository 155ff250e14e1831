// The sheet of a pot: its limits, its drawn number, its bids, its applications' administrative prices, the rows of all bids, and the capacities and yearly
// figures of bids and applications, as numbers in one lent array, which the first test and the auction read; and its size. specs/Sheet.antt says what stands
// where.
#![tactic(auto, unfolding(crate::specs::Sheet::limit_at, crate::specs::Sheet::drawn_in, crate::specs::Sheet::entrant_at, crate::specs::Sheet::admin_at, crate::specs::Sheet::row_standing, crate::specs::Sheet::row_app, crate::specs::Sheet::row_year, crate::specs::Sheet::row_price, crate::specs::Sheet::row_draw, crate::specs::Sheet::row_admin, crate::specs::Sheet::capacity_at, crate::specs::Sheet::fig_reference, crate::specs::Sheet::fig_energy, crate::specs::Sheet::fig_share))]

ghost use Rattle.std.specs.Prelude.{◌≡◌, ◌<◌};
ghost use Rattle.rules.specs.Names.{most_bids, most_apps, most_years};
ghost use Rattle.sheet.specs.Sheet.{columns, places, limit_at, drawn_in, one_more, entrant_at, admin_at, in_auction, in_test, row_app, row_year, row_price, row_draw};
ghost use Rattle.sheet.specs.Sheet.{row_admin, capacity_at, fig_reference, fig_energy, fig_share, Ready};

// How much of a sheet is used: the years, bids and applications of the file; the columns of a row of the pot's totals; and how many of the bids are of the pot,
// and enter its auction.
#[derive(Clone, Copy)]
pub struct Size {
    pub years: usize,
    pub columns: usize,
    pub bids: usize,
    pub applications: usize,
    pub entered: usize,
}

// The columns of a row of totals, and of the limits that it is held to: the years' money, and after it the capacity, where the pot has a cap on it.
pub const COLUMNS: usize = names::YEARS + 1;

// Places for figures: for those of the bids, by number, and after them for those of the applications.
pub const PLACES: usize = names::BIDS + names::APPS;

// Numbers to a row of a bid; to a capacity, to a year of figures, and to the capacity and all years of them.
pub const ROW: usize = 6;

pub const CAPACITY: usize = 1;

pub const FIGURE: usize = 3;

pub const FIGURES: usize = CAPACITY + names::YEARS * FIGURE;

// Where the drawn number stands, after the limits; where the entrants, the administrative prices, the figures and the rows start after it; and the whole.
pub const DRAWN_AT: usize = COLUMNS;

pub const ENTRANTS_AT: usize = DRAWN_AT + 1;

pub const ADMINS_AT: usize = ENTRANTS_AT + names::BIDS;

pub const FIGURES_AT: usize = ADMINS_AT + names::APPS;

pub const ROWS_AT: usize = FIGURES_AT + PLACES * FIGURES;

pub const LENGTH: usize = ROWS_AT + names::BIDS * ROW;

pub type Cells = [u64; LENGTH];

// The standings of a bid: of another pot, and of this one.
pub const ABSENT: u64 = 0;

pub const ENTERED: u64 = 1;

// A sheet that has been filled: its numbers, and how much of them is used. What has been seen to before a pot is cleared is true of it.
#[derive(Clone, Copy)]
pub struct Sheet<'a> {
    pub cells: &'a Cells,
    pub size: Size,
    ghost ready: { Ready cells.now size },
}

// The limit of a column.
pub fn limit(cells: &Cells, c: usize) -> u64
    requires { c < columns }
    ensures { result ≡ limit_at cells.now c }
{
    cells[c]
}

// The number drawn for the pot's ties, if there is one: the sheet has one more than it, and 0 where there is none.
pub fn drawn(cells: &Cells) -> Option<u64>
    ensures { one_more result ≡ drawn_in cells.now }
{
    cells[DRAWN_AT].checked_sub(1)
}

// The bid that enters the auction at place j of their list.
pub fn entrant(cells: &Cells, j: usize) -> usize
    requires { j < most_bids }
    ensures { result ≡ entrant_at cells.now j }
{
    cells[ENTRANTS_AT + j] as usize
}

// The administrative price of application a of the pot; 0 of one of another pot.
pub fn admin_price(cells: &Cells, a: usize) -> u64
    requires { a < most_apps }
    ensures { result ≡ admin_at cells.now a }
{
    cells[ADMINS_AT + a]
}

// Is application a of the pot, and so in its first test?
pub fn in_test(cells: &Cells, a: usize) -> bool
    requires { a < most_apps }
    ensures { result ≡ in_test cells.now a }
{
    cells[ADMINS_AT + a] != 0
}

// Is bid k of the pot, and so in its auction?
pub fn in_auction(cells: &Cells, k: usize) -> bool
    requires { k < most_bids }
    ensures { result ≡ in_auction cells.now k }
{
    cells[ROWS_AT + k * ROW] == ENTERED
}

pub fn app(cells: &Cells, k: usize) -> usize
    requires { k < most_bids }
    ensures { result ≡ row_app cells.now k }
{
    cells[ROWS_AT + k * ROW + 1] as usize
}

pub fn year(cells: &Cells, k: usize) -> usize
    requires { k < most_bids }
    ensures { result ≡ row_year cells.now k }
{
    cells[ROWS_AT + k * ROW + 2] as usize
}

pub fn price(cells: &Cells, k: usize) -> u64
    requires { k < most_bids }
    ensures { result ≡ row_price cells.now k }
{
    cells[ROWS_AT + k * ROW + 3]
}

pub fn draw(cells: &Cells, k: usize) -> u64
    requires { k < most_bids }
    ensures { result ≡ row_draw cells.now k }
{
    cells[ROWS_AT + k * ROW + 4]
}

pub fn admin(cells: &Cells, k: usize) -> u64
    requires { k < most_bids }
    ensures { result ≡ row_admin cells.now k }
{
    cells[ROWS_AT + k * ROW + 5]
}

// The capacity at place k.
pub fn capacity(cells: &Cells, k: usize) -> u64
    requires { k < places }
    ensures { result ≡ capacity_at cells.now k }
{
    cells[FIGURES_AT + k * FIGURES]
}

// The figures at place k, in year y.
pub fn reference(cells: &Cells, k: usize, y: usize) -> u64
    requires { (k < places) × (y < most_years) }
    ensures { result ≡ fig_reference cells.now k y }
{
    cells[FIGURES_AT + k * FIGURES + CAPACITY + y * FIGURE]
}

pub fn energy(cells: &Cells, k: usize, y: usize) -> u64
    requires { (k < places) × (y < most_years) }
    ensures { result ≡ fig_energy cells.now k y }
{
    cells[FIGURES_AT + k * FIGURES + CAPACITY + y * FIGURE + 1]
}

pub fn share(cells: &Cells, k: usize, y: usize) -> u64
    requires { (k < places) × (y < most_years) }
    ensures { result ≡ fig_share cells.now k y }
{
    cells[FIGURES_AT + k * FIGURES + CAPACITY + y * FIGURE + 2]
}
