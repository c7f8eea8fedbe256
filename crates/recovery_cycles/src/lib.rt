// Laws of the confirm cycles that requests send. No function.
#![tactic(auto)]
