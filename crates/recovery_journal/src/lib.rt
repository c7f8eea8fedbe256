// Lists of calls with requests on the journal among them: laws, no code.
#![tactic(auto)]
