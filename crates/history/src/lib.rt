// No code: specs/ has the edge book beside the engine, over lists of calls, and what demand 3 says; proofs/ has its theorem.

#![tactic(auto)]
