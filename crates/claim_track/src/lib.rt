// No code: what is claimed of one command on its track. Damage to a soundly written one, and what a command then comes to; what a write leaves.
#![tactic(auto)]
