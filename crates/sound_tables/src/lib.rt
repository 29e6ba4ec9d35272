// The part of the soundness test that reads tables.
#![tactic(auto)]

mod good;
mod tidy;
mod used;

pub use good::tables_good;
pub use tidy::tidy_tables;
pub use used::tables_used;
