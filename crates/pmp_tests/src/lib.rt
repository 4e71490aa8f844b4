//! Tests of the libraries' public calls: what no contract says, and what neither a row of text nor a call from C shows.
//! They have a crate of their own, because each crate with tests is proved twice.
#![tactic(auto)]

#[cfg(test)]
mod auditing;
#[cfg(test)]
mod cuts;
#[cfg(test)]
mod inputs;
#[cfg(test)]
mod outputs;
#[cfg(test)]
mod rows;
#[cfg(test)]
mod sharing;
#[cfg(test)]
mod surface;
#[cfg(test)]
mod using;
#[cfg(test)]
mod values;
