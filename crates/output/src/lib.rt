// Definitions and proofs alone: specs/ says what both programs print, and proofs/ proves it.
#![tactic(auto)]
