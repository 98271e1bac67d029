//! Tests of a club's tables, and of the store over them.

mod changes;
mod databases;
pub(crate) mod files;
mod limits;
mod listing;
mod refused_memory;
mod rows;
mod versions;
mod write;
