// Single orders: a graph of sc accesses has a push order without contradiction under JAM21 exactly if one order of all
// its events explains every read. This crate has the definitions (`specs/Single.antt`) and the proof
// (`proofs/SingleOrder.antt`), and no code: calls whose contracts rest on the theorem cite it from here.
#![tactic(auto)]
