// No code: specs/ has the search for the greatest and the least value of an expression, proofs/ what its answers mean.
#![tactic(auto)]

fn nothing() {}
