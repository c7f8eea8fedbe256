// How writes and erases end on any chip: laws. No function.
#![tactic(auto)]
