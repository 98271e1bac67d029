//! Stores a club in the tables of a database. The crate defines the schema, the rows, and the SQL
//! statements that read and write the rows. Between calls, the connection isn't in a transaction.
#![tactic(auto)]

mod limits;
mod most;
mod open;
mod params;
mod reads;
mod row;
mod sum;
mod tables;
mod texts;
mod transaction;
mod writes;

pub use row::MemberRow;
pub use tables::Tables;
pub use transaction::{Statement, fault_of};
