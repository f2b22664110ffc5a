//! Tests of the public calls of the lower crates, by worked rows. They have a crate of their own, since a
//! crate with tests is proved twice.
#![tactic(auto)]

#[cfg(test)]
mod caller;
#[cfg(test)]
mod collecting;
#[cfg(test)]
mod dies;
#[cfg(test)]
mod geometries;
#[cfg(test)]
mod layers;
#[cfg(test)]
mod traces;
#[cfg(test)]
mod words;
