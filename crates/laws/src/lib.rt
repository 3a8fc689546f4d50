// Mathematics that knows nothing of sheets: tables of numbers, the least node reachable.
#![tactic(auto)]
