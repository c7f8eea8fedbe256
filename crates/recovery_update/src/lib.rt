// A chip that an older version of the store left: demand 3 from there. No code.
#![tactic(auto)]
