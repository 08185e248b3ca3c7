// Both ends together: what sender and hub make of a message between them. Only definitions and theorems stand here, in
// specs/ and proofs/; there is no code for a firmware.
#![tactic(auto)]
