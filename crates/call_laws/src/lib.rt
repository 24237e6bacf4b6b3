// Laws about the definitions of the calls, in proofs/: the allowance rule, the bound on a batch, and that lengths and bytes are kept.
// In specs/ are what they speak of: the path of a page before it is loaded, and the cells of a write.
#![tactic(auto)]
