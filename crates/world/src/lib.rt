// Definitions and proofs alone: specs/ says what a program of register accesses is, and what lists of calls do to a world of such programs.
#![tactic(auto)]
