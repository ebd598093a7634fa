// The card: the check of a whole card before anything is run, its top values as open's top cells, and the run of one operation.
#![tactic(auto)]

pub mod check;
pub mod run;
pub mod tops;
