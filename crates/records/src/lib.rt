// The records of a file's first four sections: each section's own checks, over the part of the file that its records occupy.
#![tactic(auto)]

pub mod applications;
mod order;
pub mod pots;
pub mod technologies;
pub mod years;
