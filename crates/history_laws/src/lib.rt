// The history rule: its statement stands in specs/History.antt, its proof in proofs/Rule.antt. docs/ARCHITECTURE.md says in which sequence
// to read the rest.
#![tactic(auto)]
