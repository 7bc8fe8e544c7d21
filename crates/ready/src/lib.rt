// Ready: what a run works out once of a patch, and the flip over it. It has no call of its own; the walk uses its part.
#![tactic(auto)]

pub mod kernel;
