// No code: specs/ has what the first-point search and the count of the points of a box answer, proofs/ what their answers mean; the code stands
// in search and counting.
#![tactic(auto)]

fn nothing() {}
