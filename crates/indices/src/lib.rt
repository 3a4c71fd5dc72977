// Theorems only: what a row adds, the partial indices and A are in specs/, what is proved of them in proofs/.
#![tactic(auto)]
