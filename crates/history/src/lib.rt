// Definitions and proofs alone: specs/ says what lists of calls do to the machine, and proofs/ proves it.
#![tactic(auto)]
