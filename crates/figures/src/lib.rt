// The paper's figures on the small chip, as the definitions give them. No code.
#![tactic(auto)]
