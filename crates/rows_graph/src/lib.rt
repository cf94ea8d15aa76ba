//! Test cases of graphs and ranks.
#![tactic(auto)]

#[cfg(test)]
mod answers;
#[cfg(test)]
mod heights;
#[cfg(test)]
mod nested;
#[cfg(test)]
mod ranks;
#[cfg(test)]
mod rows;
#[cfg(test)]
mod shown;
#[cfg(test)]
mod shown_ranks;
#[cfg(test)]
mod words;
