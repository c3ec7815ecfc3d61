// The words of the heap against the objects of a typed state.
//
// Where the words stand for what the roots of a state reach (`RootsStand` in specs/), words and values reach the same. So what
// allocation and collection say of words holds of the typed machine: their answers are legal, and the words stand for the
// state after them.
#![tactic(auto)]

pub mod laws;
