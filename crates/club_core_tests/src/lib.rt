//! Tests of caveats, of a club's rows, and of the reference machine.
#![tactic(auto)]

#[cfg(test)]
mod answers;
#[cfg(test)]
mod caveats;
#[cfg(test)]
mod decisions;
#[cfg(test)]
mod expect;
#[cfg(test)]
mod reference;
#[cfg(test)]
mod rows;
#[cfg(test)]
mod values;
