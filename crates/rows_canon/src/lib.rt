//! Test cases of readers and writers that take little at a time, or fail, of comparisons of which one side is rejected, of streams in
//! one store, of how many nodes are visited, and of the values of streams.
#![tactic(auto)]

#[cfg(test)]
mod gathering;
#[cfg(test)]
mod lengths;
#[cfg(test)]
mod ranked;
#[cfg(test)]
mod runs;
#[cfg(test)]
mod sides;
#[cfg(test)]
mod stores;
#[cfg(test)]
mod streams;
#[cfg(test)]
mod value_rows;
#[cfg(test)]
mod visits;
