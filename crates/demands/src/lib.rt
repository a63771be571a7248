// Theorems only: the mission's demands, over the rules and the token's outcome. The statements are in specs/, their proofs in proofs/.
#![tactic(auto)]
