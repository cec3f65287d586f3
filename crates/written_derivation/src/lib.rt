// Derivations written for a rule file: document 02's walk and its file are in specs/, and that the check accepts what
// is written, with the figure, in proofs/.
#![tactic(auto)]
