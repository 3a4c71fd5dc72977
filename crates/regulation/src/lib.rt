// Theorems only: the regulation's own letters are in specs/, and that the forms of solas are these is proved in proofs/.
#![tactic(auto)]
