// What a tie starts from: the bids that remain, gathered as a list, with "one binary place for each remaining bid, the lowest draw highest"; and what the present
// winners count at its price. `combinations/specs/Combinations.antt` says what each function computes.
#![tactic(auto)]

ghost use Rattle.std.specs.Prelude.{◌≡◌, ◌≤◌, length};
ghost use Rattle.rules.specs.Names.{most_bids, widest_tie};
ghost use Rattle.arrays.specs.Sets.{members};
ghost use Rattle.combinations.specs.Combinations.{Few, Numbers, compact_of, above_of, ranks_of, starts_of, tied_of};

pub mod winners;

use combinations::Tied;
use names::{BIDS, WIDEST_TIE};
use sheet::{Sheet, Size};

// The numbers of the bids of a small set.
fn compact(of: Size, set: [bool; BIDS]) -> [usize; WIDEST_TIE]
    requires { (of.bids ≤ most_bids) × (length (members set of.bids) ≤ widest_tie) }
    ensures { result ≡ compact_of set of.bids }
{
    let mut list = [0usize; WIDEST_TIE];
    let mut c: usize = 0;
    for k in 0..of.bids {
        if set[k] {
            list[c] = k;
            c += 1;
        }
    }
    list
}

// How many bids of a list have a draw above x.
fn above(sheet: &Sheet, list: &[usize], x: u64) -> u32
    requires { Numbers list.now (length list.now) sheet.now.size.bids }
    ensures { result ≡ above_of sheet.now.cells.now list.now x (length list.now) }
{
    let mut n: u32 = 0;
    for k in list {
        if sheet::draw(sheet.cells, *k) > x {
            n += 1;
        }
    }
    n
}

// The binary place of each bid: the lowest draw highest.
fn ranks(sheet: &Sheet, list: &[usize]) -> [u32; WIDEST_TIE]
    requires { Numbers list.now (length list.now) sheet.now.size.bids }
    ensures { result ≡ ranks_of sheet.now.cells.now list.now (length list.now) }
{
    let mut out = [0u32; WIDEST_TIE];
    for j in 0..list.len() {
        out[j] = above(sheet, list, sheet::draw(sheet.cells, list[j]));
    }
    out
}

// The start year of each bid.
fn starts(sheet: &Sheet, list: &[usize]) -> [u32; WIDEST_TIE]
    requires { Numbers list.now (length list.now) sheet.now.size.bids }
    ensures { result ≡ starts_of sheet.now.cells.now list.now (length list.now) }
{
    let mut out = [0u32; WIDEST_TIE];
    for j in 0..list.len() {
        out[j] = sheet::year(sheet.cells, list[j]) as u32;
    }
    out
}

// The bids of a set, of which there are `count`.
pub fn gathered(sheet: &Sheet, set: [bool; BIDS], count: usize) -> Tied
    requires { Few sheet.now.size set count }
    ensures { result ≡ tied_of sheet.now.cells.now sheet.now.size set count }
{
    let bids = compact(sheet.size, set);
    let ranks = ranks(sheet, &bids[..count]);
    let starts = starts(sheet, &bids[..count]);
    Tied {
        count,
        bids,
        ranks,
        starts,
    }
}
