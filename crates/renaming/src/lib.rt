// What Rename does to an image and to its occurrence list: theorems, no code.
#![tactic(auto)]
