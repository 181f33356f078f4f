// Theorems over the packed link, both ways: see specs/Trips.antt. It has no code.
#![tactic(auto)]
