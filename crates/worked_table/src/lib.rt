// Document 01's worked cases as one proved table: see specs/Worked.antt. It has no code.
#![tactic(auto)]
