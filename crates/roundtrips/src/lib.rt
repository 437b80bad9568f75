// What is written is read back, and what was read can be written again: specs/RoundTrips says it, and proofs/RoundTrips proves it. There is no code here.
#![tactic(auto)]
