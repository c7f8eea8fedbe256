// Laws of the requests that write and erase. No function.
#![tactic(auto)]
