// The requests that write a page and erase a logical block: definitions, and tests of them. No code.
#![tactic(auto)]
