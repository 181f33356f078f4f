// The packed language beside the plain one, as definitions and laws only: see specs/Packed.antt. It has no code.
#![tactic(auto)]
