// A write finished in portions is the plain write: definitions and laws, no code.
#![tactic(auto)]
