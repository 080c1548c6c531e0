// Tables of comma-separated fields: records, fields and whole numbers as parts of the input, none of it copied.
#![tactic(auto)]

pub mod cursor;
pub mod fault;
pub mod field;
pub mod input;
pub mod line;
pub mod number;
#[cfg(test)]
mod tests;
pub mod unique;
