//! Tests of passes as bytes and texts.
#![tactic(auto)]

#[cfg(test)]
mod any;
#[cfg(test)]
mod calls;
#[cfg(test)]
mod chain;
#[cfg(test)]
mod envelope;
#[cfg(test)]
mod json;
#[cfg(test)]
mod read;
#[cfg(test)]
mod refused_memory;
#[cfg(test)]
mod rows;
#[cfg(test)]
mod texts;
#[cfg(test)]
mod v1;
#[cfg(test)]
mod v2;
#[cfg(test)]
mod write;
