// Theorems only: what a reader may rely on is in specs/, its proof in proofs/.
#![tactic(auto)]
