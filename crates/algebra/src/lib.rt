#![tactic(auto)]

// Whole numbers, residues, the ring of polynomials, vectors and matrices: definitions and laws, in specs/.
