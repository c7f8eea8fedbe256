// A list of calls on the small chip that ends in demand 3's last case, computed. No code.
#![tactic(auto)]
