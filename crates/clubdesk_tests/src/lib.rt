//! Tests of runs of `clubdesk`, over clubs in files and over a club in memory.
#![tactic(auto)]

#[cfg(test)]
mod arriving;
#[cfg(test)]
mod callers;
#[cfg(test)]
mod commands;
#[cfg(test)]
mod door;
#[cfg(test)]
mod ends;
#[cfg(test)]
mod files;
#[cfg(test)]
mod handed_over;
#[cfg(test)]
mod handover;
#[cfg(test)]
mod lists;
#[cfg(test)]
mod long;
#[cfg(test)]
mod memory;
#[cfg(test)]
mod runs;
#[cfg(test)]
mod servers;
