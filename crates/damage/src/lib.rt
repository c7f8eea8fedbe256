// Laws of requests on their way, told without cycles: what each operation leaves of the chip's blocks and pages. No code.
#![tactic(auto)]
