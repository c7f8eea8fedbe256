// Requests on the journal of a state that a write may be open on: definitions and laws, no code.
#![tactic(auto)]
