// The maximum probability of satisfaction: no code. Its definition is in specs/, and in proofs/ that the figure is this
// probability.
#![tactic(auto)]
