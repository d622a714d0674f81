// Theorems only: fields, polynomials, interpolation and binary fields, of any size. See specs/.
#![tactic(auto)]
