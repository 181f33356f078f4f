// Theorems over the reader, lookup and both writers together: see specs/RoundTrip.antt. It has no code.
#![tactic(auto)]
