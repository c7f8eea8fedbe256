// Laws of the loop that fills: run to its end it is the request by whole fills. There is no code here.
#![tactic(auto)]
