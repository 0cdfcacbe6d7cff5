//! What each call of a lane leaves is kept, and fits in every run that goes on from what the lane's passes have seen. There is no code here, only lemmas.
#![tactic(auto)]
