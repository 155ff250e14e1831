// The marks of the bids, by which the state of a pot tells its winners: a bid looked at has its reason for a mark.

// "Not yet looked at".
pub const FRESH: u16 = names::NO_REASON as u16;

pub const WON: u16 = names::BECAUSE_WON as u16;

pub const ALONE: u16 = names::DOWN_ALONE as u16;

pub const TIED: u16 = names::DOWN_TIED as u16;

// Not of this auction: no reason of the paper.
pub const OTHER: u16 = 9;
