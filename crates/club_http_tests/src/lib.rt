//! Tests of requests and replies as bytes, of exchanges with a test double of the desk, and of the
//! server.
#![tactic(auto)]

#[cfg(test)]
mod bodies;
#[cfg(test)]
mod body_lengths;
#[cfg(test)]
mod counted;
#[cfg(test)]
mod desk;
#[cfg(test)]
mod expect;
#[cfg(test)]
mod heads;
#[cfg(test)]
mod replies;
#[cfg(test)]
mod server;
#[cfg(test)]
mod sockets;
