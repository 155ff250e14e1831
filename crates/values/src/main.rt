// Document 01's values V1 to V5, in pence, and the edges of rounding, run: each is checked, and that the check holds is proved.
#![tactic(auto)]

// Load factor × hours × capacity: of V1, V3 and V4, of V2 and of V5.
const ENERGY: u64 = 3000 * 8760 * 1000;

const ENERGY_2: u64 = 3000 * 8760 * 1001;

const ENERGY_5: u64 = 10000 * 8784 * 300000;

// (1 − TLM) × RQM: of V1 to V4 and of V5.
const SHARE: u64 = 9910 * 10000;

const SHARE_5: u64 = 10000 * 10000;

fn worked() {
    check::expect(value::value(100000, 50000, ENERGY, SHARE) == 130217400);
    check::expect(value::value(100000, 50000, ENERGY_2, SHARE) == 130347618);
    check::expect(value::value(40000, 50000, ENERGY, SHARE) == 0);
    check::expect(value::value(50000, 50000, ENERGY, SHARE) == 0);
    check::expect(value::value(500000, 0, ENERGY_5, SHARE_5) == 1317600000000);
}

// The least cost above nothing, which is 24 parts; a penny's 10^15 parts, and one part more; a pound's 10^17, and one more.
fn edges() {
    check::expect(value::value(1, 0, 24, 1) == 1);
    check::expect(value::value(10, 0, 1000000, 100000000) == 1);
    check::expect(value::value(11, 0, 4627441, 19645651) == 2);
    check::expect(value::value(1000, 0, 1000000, 100000000) == 100);
    check::expect(value::value(11, 0, 21993833369, 413339) == 101);
}

fn main() {
    worked();
    edges();
}
