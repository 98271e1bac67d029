//! Tests of the tables, of the store over them, of the desk over tables in memory, of exchanges
//! that fail, and of crashes. The scenarios test the replies to single requests and commands.
#![tactic(auto)]

#[cfg(test)]
mod crashes;
#[cfg(test)]
mod exchanges;
#[cfg(test)]
mod expect;
#[cfg(test)]
mod fixture;
#[cfg(test)]
mod happens;
#[cfg(test)]
mod law;
#[cfg(test)]
mod lists;
#[cfg(test)]
mod long;
#[cfg(test)]
mod passes;
#[cfg(test)]
mod prelude;
#[cfg(test)]
mod readings;
#[cfg(test)]
mod refusals;
#[cfg(test)]
mod refused_memory;
#[cfg(test)]
mod refusing;
#[cfg(test)]
mod store;
#[cfg(test)]
mod trial;
#[cfg(test)]
mod values;
