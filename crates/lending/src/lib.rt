// No code: the law of a call on a state that a host lends. It stands in proofs/.
#![tactic(auto)]
