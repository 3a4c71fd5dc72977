// Theorems only: the definitions, in the words of document 01, are in specs/, what is proved of them in proofs/.
#![tactic(auto)]
