// What a request gives after another one: reads after a mount or a formatting that was answered 0, reads of a chip that is not ready, mounts and
// formattings of a chip with any interface. No code.
#![tactic(auto)]
