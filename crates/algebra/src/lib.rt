// Laws of whole numbers, signs, sums and loops that all rooms use. It holds no code: see specs/ and proofs/.
#![tactic(auto)]
