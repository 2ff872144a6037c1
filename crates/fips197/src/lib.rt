// Worked examples of FIPS 197, as theorems about the definitions: proofs/Examples. There is no code here.
#![tactic(auto)]
