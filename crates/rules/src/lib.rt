// What is right: live rules, answers, nodes and the block ledger, from RFC 4632 and document 01 alone. No code; specs/ has the definitions, proofs/ their laws.
#![tactic(auto)]
