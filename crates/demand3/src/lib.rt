// Demand 3 of document 01, with requests T-08 and T-09, and the exact delivery time of request T-12: claims about what `chain` promises.
//
// Demand 3 stands in `specs/Demand3.antt`, and what the delivery time means in `specs/ExactTime.antt`; both are proved from the
// definitions and promises of `chain`. There is no code.
#![tactic(auto)]
