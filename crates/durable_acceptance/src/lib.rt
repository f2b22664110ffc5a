//! Tests of the layer that survives power cuts, over a modelled chip: worked rows, and random runs with a
//! cut at any command against a shadow array that knows what was acknowledged.
#![tactic(auto)]

#[cfg(test)]
mod bench;
#[cfg(test)]
mod failures;
#[cfg(test)]
mod random;
#[cfg(test)]
mod rows;
#[cfg(test)]
mod several;
#[cfg(test)]
mod trims;
