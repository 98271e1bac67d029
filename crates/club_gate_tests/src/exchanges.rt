//! Exchanges that fail: the bytes end early, a reply isn't written, or memory runs out.

mod ends;
mod failing_ends;
mod fixture;
mod refused_memory;
