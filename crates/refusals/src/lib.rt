// The image tests and Name, computed: a damaged image for each refusal, in proofs/.
#![tactic(auto)]
