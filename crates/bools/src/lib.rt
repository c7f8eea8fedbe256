// Laws of tests on truth values, which every layer uses. No code.
#![tactic(auto)]
