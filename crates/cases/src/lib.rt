// The starred cases of document 01, in specs/: a list of them, and the law that all hold. There is no code.
#![tactic(auto)]
