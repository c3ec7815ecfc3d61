// Tests of the crates below the checker: worked rows, printed words, and each public call once. They stand in a crate of
// their own, since a crate that has tests is proved a second time with them.
#![tactic(auto)]

#[cfg(test)]
mod devices;
#[cfg(test)]
mod files_and_streams;
#[cfg(test)]
mod heaps;
#[cfg(test)]
mod layouts;
#[cfg(test)]
mod stacks;
