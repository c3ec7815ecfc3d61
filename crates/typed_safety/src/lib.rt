// Typing is kept: by each instruction and turn of a well typed image, from its first state on.
//
// The laws stand over the typed machine's `Effect`, `TurnOf` and `RunOf`, and its `TypedAmong`. An instruction's law asks for
// `RunsOn` and for `ImageLaws` (in specs/), which each formed image has. No turn takes a call of an entry of the heap yet: of
// such a call the laws say that its arguments are typed and that its reply is awaited.
#![tactic(auto)]

pub mod laws;
