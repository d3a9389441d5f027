// The proof table of the paper: cases that every reading of it must give, proved of the definitions that the contracts cite. There is no code here.
#![tactic(auto)]
