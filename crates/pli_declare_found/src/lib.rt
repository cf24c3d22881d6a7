//! References of several names are searched for once, whatever number of times they stand.
#![tactic(auto)]

mod attributes;
mod marks;
mod references;
mod tables;

pub use tables::searched_tables;
