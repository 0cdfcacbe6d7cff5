//! What the record shows of all that lanes have left: its sorted lines are what their calls did. There is no code here, only lemmas.
#![tactic(auto)]
