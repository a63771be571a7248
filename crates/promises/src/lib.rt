// Theorems only: of every public function, that its contract asks nothing and that any two results it allows are equal.
#![tactic(auto)]
