//! Passes for C, and for every language that can call C. Each exported function calls functions of
//! `pass_calls`, and states their clauses again.
#![tactic(auto)]

mod exports;
#[cfg(test)]
mod tests;
