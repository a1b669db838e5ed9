// The noise and the theorem that small noise does no harm: definitions and laws, in specs/.
#![tactic(auto)]
