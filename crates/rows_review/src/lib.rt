//! Test cases of `yamlreview` and its library that no run of the program shows: files and streams that fail, globs, and room for conflicts.
#![tactic(auto)]

#[cfg(test)]
mod compared;
#[cfg(test)]
mod conflicts;
#[cfg(test)]
mod folders;
#[cfg(test)]
mod names;
#[cfg(test)]
mod rows;
#[cfg(test)]
mod runs;
