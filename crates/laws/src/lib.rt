// Shared lemmas; no code. See specs/.
#![tactic(auto)]
