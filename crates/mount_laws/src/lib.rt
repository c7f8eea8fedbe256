// What a mount leaves: nothing on the chip changed, the answer and the state that the definitions on the array give. No code.
#![tactic(auto)]
