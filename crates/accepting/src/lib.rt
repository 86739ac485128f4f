// What suffices for an image to be accepted, and the rows of one image that stand in another: definitions and theorems, no code.
#![tactic(auto)]
