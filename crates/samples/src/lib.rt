// The proved samples stand in specs/, and the one claim over them in proofs/.
#![tactic(auto)]
