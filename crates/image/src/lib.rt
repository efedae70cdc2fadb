// Lent memory that holds live rules: which node and which value stands where; walks over it, and what edits make of it. No code; specs/ has the notions, proofs/ their laws.
#![tactic(auto)]
