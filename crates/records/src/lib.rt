// The numbers of a record, of any kind that a field may write.
#![tactic(auto)]

pub mod numbers;
