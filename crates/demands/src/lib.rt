// No code: the owner's demands as theorems over the crates below. Their statements are in specs/, their proofs in proofs/.
#![tactic(auto)]
