// A pool of blocks on sound memory: whose each place is, and that growth and shrinkage keep it so; their numbers are the ledger's. No code; specs/ has the notions, proofs/ their laws.
#![tactic(auto)]
