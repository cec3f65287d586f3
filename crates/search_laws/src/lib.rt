// The amount of a formula over variables that are left, by the rests of its clauses: no code. Its definition is in
// specs/, and in proofs/ the laws by which a search may shorten its way to it.
#![tactic(auto)]
