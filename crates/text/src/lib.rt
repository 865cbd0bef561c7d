// Definitions and proofs alone: specs/ says what texts, decimal digits and bytes stored from a place on are, and proofs/ proves their laws.
#![tactic(auto)]
