// The write that sends the most cycles and is still acknowledged: laws.
#![tactic(auto)]
