// No code: what is claimed of a pack over every chain and call. Storage of bytes stays bytes; what is soundly written stays so.
#![tactic(auto)]
