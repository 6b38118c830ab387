// The starred cases of document 01, from bytes to bytes, and the wrong builders that it shuts out by name: see specs/ and proofs/.
#![tactic(auto)]
