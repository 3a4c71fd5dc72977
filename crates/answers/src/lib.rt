// Theorems only: what the service answers is in specs/, what is proved of it in proofs/.
#![tactic(auto)]
