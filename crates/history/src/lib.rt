// Demands 2 and 3 of the order as theorems: whatever calls come after a fresh start, the map is the live rules and the block ledger. No code; specs/ has what is to be believed, proofs/ why it holds.
#![tactic(auto)]
