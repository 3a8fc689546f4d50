// The laws about the paper's definitions, up to the theorem of joining.
#![tactic(auto)]
