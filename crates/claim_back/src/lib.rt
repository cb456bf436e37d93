// No code: what is claimed of what was written, when it is read again through the box; and of a loop of Search ID and TIC, which comes to its record.
#![tactic(auto)]
