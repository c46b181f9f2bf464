// What Tree Caching is: definitions in specs/; laws, theorems and examples in proofs/. No code.
#![tactic(auto)]
