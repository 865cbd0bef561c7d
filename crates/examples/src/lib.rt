// Document 01's examples P1 to P10 as one table under one statement: definitions and a proof, no code.
#![tactic(auto)]
