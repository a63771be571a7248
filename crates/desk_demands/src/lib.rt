// Theorems only: the mission's demands over the bytes that a desk keeps and its C calls. The statements are in specs/, their proofs in proofs/.
#![tactic(auto)]
