//! Test cases of `yamlcanon` that no run of the program shows: streams and files that fail, and the message of each fault.
#![tactic(auto)]

#[cfg(test)]
mod failing;
#[cfg(test)]
mod fakes;
#[cfg(test)]
mod files;
#[cfg(test)]
mod pages;
#[cfg(test)]
mod runs;
#[cfg(test)]
mod texts;
#[cfg(test)]
mod told;
