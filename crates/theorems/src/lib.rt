// No code: what follows from the definitions and the promises.
#![tactic(auto)]
