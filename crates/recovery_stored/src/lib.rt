// What this store can leave of a chip, page by page: laws of arrays. No code.
#![tactic(auto)]
