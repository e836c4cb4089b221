// No code: the general definitions and laws that the specifications and proofs of several crates cite, in specs/.
#![tactic(auto)]
