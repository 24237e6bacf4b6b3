// The definitions of the six calls. They stand in specs/; proofs/ runs some of them.
#![tactic(auto)]
