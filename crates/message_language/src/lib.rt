// The message language of 01, as definitions only: see specs/Language.antt. It has no code, so that nothing in it can lean on a reader.
#![tactic(auto)]
