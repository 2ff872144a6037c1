#![tactic(auto)]

// Sealing and opening computed on the definitions, beside the bytes of another AES-CCM: see specs/. There is no code here.
