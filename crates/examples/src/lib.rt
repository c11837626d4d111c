// The worked examples of document 01, "Bench examples", and of requests T-04, T-05, T-07, T-09, T-10 and T-14, as claims about the
// definitions.
//
// The lists stand in `specs/`, each with its claim in the file of `proofs/` by the same name, checked by computation: P1 to P12, C1 to C6
// and S1 to S8 in `Bench.antt`, N1 to N8 and O1 to O6 in `Numbered.antt`, A1 to A11 in `Realigned.antt`, streams cut into bursts in
// `Bursts.antt`, the records that are refused in `Records.antt`. There is no code: the examples that are run are those of the crate
// `run_examples`.
#![tactic(auto)]
