// The readings of a lorry run: a table becomes a draft and its rows, record by record.
#![tactic(auto)]

mod header;
mod rows;
pub mod run;
