// No code: tests of lists, which specs/ has, and laws in proofs/, of such tests, of tests that are computed and of lists in runs.
#![tactic(auto)]
