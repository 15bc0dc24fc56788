// What a rule is, in definitions and their laws: its grammar, its limits, the first fault of a text, its states and rows, and what it means.
#![tactic(auto)]
