// No code: histories worked out, for the reader of the demands. Their statements are in specs/, their proofs in proofs/.
#![tactic(auto)]
