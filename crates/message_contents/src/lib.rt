// Contents and how a message of them is spelt, as definitions and laws only: see specs/Contents.antt. It has no code.
#![tactic(auto)]
