//! Tests of whole sessions of the program over streams and files in memory: its status, its output, the line that it reports, and what its
//! files hold.
#![tactic(auto)]

#[cfg(test)]
mod tests;
