// The paper's hand-sized examples P1 to P14, held against the definitions: the table stands in specs/, its check in proofs/.
#![tactic(auto)]
