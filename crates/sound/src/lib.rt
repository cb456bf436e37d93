// No code: the model of a soundly written track, what it makes certain, and tracks that are or are not so written.
#![tactic(auto)]
