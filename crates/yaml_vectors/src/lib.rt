//! Test cases of the whole: inputs with their canonical texts or rejections.
#![tactic(auto)]

#[cfg(test)]
mod limits;
#[cfg(test)]
mod mappings;
#[cfg(test)]
mod rows;
#[cfg(test)]
mod sequences;
#[cfg(test)]
mod tables;
#[cfg(test)]
mod worked;
