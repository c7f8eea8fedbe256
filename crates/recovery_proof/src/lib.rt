// Laws of lists of calls. No function.
#![tactic(auto)]
