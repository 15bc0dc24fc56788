// The samples of the language's description, held to the definitions.
#![tactic(auto)]
