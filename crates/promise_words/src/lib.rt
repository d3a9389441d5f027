// The promise for the calls on words, which clients make: demand 3 and what goes with it, for an opening and any run of frame calls, each known by its contract alone. There is no code here.
#![tactic(auto)]
