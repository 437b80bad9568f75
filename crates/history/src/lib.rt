// The meanings that an order of paper 02 replaced, and what of them still holds. Each file of specs/ names its order; proofs/ has the proofs. No other crate uses
// this one, and there is no code.
#![tactic(auto)]
