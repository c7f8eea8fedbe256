// Table fills, one after the other until one passes: definitions and laws. No code.
#![tactic(auto)]
