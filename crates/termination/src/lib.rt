// No code: specs/ has the tableaus that a test and a value search come to, and both without limits; proofs/ shows that no choice of columns comes back.
#![tactic(auto)]

fn nothing() {}
