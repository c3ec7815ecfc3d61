// What is reached from values in a store: the rounds of marks by which it is computed give a least set.
#![tactic(auto)]

pub mod laws;
