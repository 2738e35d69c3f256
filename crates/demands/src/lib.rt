// The three demands, as theorems over the promises of the public calls: there is no code here, proofs/ has a file for each.
#![tactic(auto)]
