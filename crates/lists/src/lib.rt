// Lists as every layer above speaks of them: parts, tables, tests and sums. Definitions and laws only; there is no code here.
#![tactic(auto)]
