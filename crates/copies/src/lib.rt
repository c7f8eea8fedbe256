// What blocks hold: marks, copies, the table, what is current. Definitions and laws; no code.
#![tactic(auto)]
