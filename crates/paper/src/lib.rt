// The paper's definitions are in specs/, its marked cases in proofs/.
#![tactic(auto)]
