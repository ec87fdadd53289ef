// No code: specs/ has a box as a set, what is outside a set there, and the ranges of a scale as definitions, proofs/ what they mean; the code stands in coverage.
#![tactic(auto)]

fn nothing() {}
