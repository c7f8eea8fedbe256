// Laws of single bus cycles and of runs of cycles: lengths kept, replay, what is refused. No code.
#![tactic(auto)]
