//! What all lanes leave, round by round, where each of their calls is kept. There is no code here, only lemmas.
#![tactic(auto)]
