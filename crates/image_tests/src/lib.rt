// Tests of the crates from instructions to the machine: worked rows, printed words, and public calls. They stand in a crate of
// their own, since a crate that has tests is proved a second time with them.
#![tactic(auto)]

#[cfg(test)]
mod checking;
#[cfg(test)]
mod decoding;
#[cfg(test)]
mod fields;
#[cfg(test)]
mod frames;
#[cfg(test)]
mod images;
#[cfg(test)]
mod machine;
#[cfg(test)]
mod memory;
#[cfg(test)]
mod memory_steps;
#[cfg(test)]
mod nucleus;
#[cfg(test)]
mod rules;
#[cfg(test)]
mod test_image;
#[cfg(test)]
mod types;
