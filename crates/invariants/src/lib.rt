// Theorems about every event of the hart; no code. proofs/ has them, specs/ what they speak of.
#![tactic(auto)]
