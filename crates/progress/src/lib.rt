// A request on its way: its operations as steps, and laws of each. No code.
#![tactic(auto)]
