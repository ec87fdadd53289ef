// No code: specs/ has the test for fractions as its numbered steps, proofs/ what its answers mean; the code stands in tableau and simplex.
#![tactic(auto)]

fn nothing() {}
