// The crate is its statements in specs/ and its theorems in proofs/: what follows from the promises of the store's calls, with no code.
#![tactic(auto)]
