// No code: what is claimed of the calls that a host links, on the 64 bytes that it lends: cutting, confinement, demand 3, soundness.
#![tactic(auto)]
