// The literals of a line: into slots, and from slots into the arrays.
#![tactic(auto)]

pub mod slots; // slots.rt: question 10, into slots
pub mod enter; // enter.rt: a clause or a rule into the arrays
