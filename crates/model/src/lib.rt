// What a store means: definitions and theorems only, see specs/ and proofs/.
#![tactic(auto)]
