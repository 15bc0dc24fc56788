// Both halves together, in definitions and a theorem: what a dock grants for the rule that a volunteer wrote.
#![tactic(auto)]
