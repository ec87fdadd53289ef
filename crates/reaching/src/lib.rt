// No code: specs/ says when the words of a memory show a desk of states; proofs/ shows that the calls on these words are planning's.
#![tactic(auto)]

fn nothing() {}
