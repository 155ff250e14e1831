// Bids added to a combination: that it then comes to no less, which passing over combinations rests on; and whether one can be added at all.
// specs/Added.antt says what each function computes.
#![tactic(auto)]

pub mod sound;
pub mod whole;
