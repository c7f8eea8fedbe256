// The book of acknowledged writes and erases, and the request under way: definitions, tests of them, and laws. No code.
#![tactic(auto)]
