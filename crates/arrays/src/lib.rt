// Sets of bids, as arrays with a place for each bid by number; and arrays into which values are laid. specs/Sets.antt says what each function computes.
#![tactic(auto)]

ghost use Rattle.std.specs.Prelude.{◌≡◌, ◌+◌, ◌≤◌, length, get_or};
ghost use Rattle.rules.specs.Names.{most_bids};
ghost use Rattle.arrays.specs.Sets.{built, members, placed, without};

use names::BIDS;

// How many bids a set has.
pub fn count(set: [bool; BIDS], bids: usize) -> usize
    requires { bids ≤ most_bids }
    ensures { result ≡ length (members set bids) }
{
    set[..bids].iter().filter(|taken| **taken).count()
}

// A set without the bids of another.
pub fn others(set: [bool; BIDS], out: [bool; BIDS], bids: usize) -> [bool; BIDS]
    requires { bids ≤ most_bids }
    ensures { result ≡ built (without set out) bids }
{
    let mut rest = [false; BIDS];
    for k in 0..bids {
        rest[k] = set[k] && !out[k];
    }
    rest
}

// Lays a row in an array, from place `at` on.
pub fn lay(out: &mut [u64], row: &[u64], at: usize)
    requires { at + length row.now ≤ length out.old }
    ensures { out.new ≡ placed (λ c. get_or row.now c 0) out.old at (length row.now) }
{
    out[at..at + row.len()].copy_from_slice(row);
}
