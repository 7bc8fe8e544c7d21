// The walk over flips, for any flip and any test: a table of rows, a record, and what is true of them. It holds no code: see specs/ and proofs/.
#![tactic(auto)]
