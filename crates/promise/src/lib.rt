// Demand 3 for the calls of the code: a run of opening and frame calls, each known by its contract alone; the figures that are told after it, and the tally of its answers. There is no code here.
#![tactic(auto)]
