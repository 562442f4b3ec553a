// The rules of what else is done with captures: definitions and laws, no code.
#![tactic(auto)]
