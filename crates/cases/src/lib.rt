// The proved cases of documents 01 and 02. It holds no code: see specs/Table.antt, specs/Controller.antt and proofs/Cases.antt.
#![tactic(auto)]
