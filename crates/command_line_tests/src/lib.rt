//! Tests of the command lines of `passtool` and of `clubdesk`.
#![tactic(auto)]

#[cfg(test)]
mod clubdesk;
#[cfg(test)]
mod expect;
#[cfg(test)]
mod passtool;
