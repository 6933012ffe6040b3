// Tests of a record by itself: codes and ranges (5), bytes that must be zero (4); of the kinds that both formats share, too.
#![tactic(auto)]

pub mod codes;
pub mod unused;
