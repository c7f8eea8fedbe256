// What an acknowledged formatting leaves, whatever the chip held, failed or cut before it. No code.
#![tactic(auto)]
