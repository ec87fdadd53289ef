// No code: specs/ has the named states of request 8 and their marks; proofs/ shows what they say and what going back restores.
#![tactic(auto)]

fn nothing() {}
