// Formattings forget no entry of the table of invalid blocks: laws, no code.
#![tactic(auto)]
