// No code: what is claimed of the box, in document 01's words.
#![tactic(auto)]
