//! Tests of the shared device's public calls: rows of calls with their answers; calls of hosts and brooms that interleave at each point of
//! a gate, drawn from seeds and checked by a plain array; the words of the table after each call; and many threads at the same time. They
//! have a crate of their own, since a crate with tests is proved twice.
#![tactic(auto)]

#[cfg(test)]
mod actors;
#[cfg(test)]
mod caller;
#[cfg(test)]
mod closing;
#[cfg(test)]
mod models;
#[cfg(test)]
mod opening;
#[cfg(test)]
mod rows;
#[cfg(test)]
mod schedules;
#[cfg(test)]
mod threads;
