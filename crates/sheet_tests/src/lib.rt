//! Tests of the calls of sheets and desks, and of those below that the program does not make, for results that neither
//! contracts nor the worked rows of the program cover. A call that allocates succeeds once, with the right answer.
#![tactic(auto)]

#[cfg(test)]
mod arrays_core_tests;
#[cfg(test)]
mod cost_tests;
#[cfg(test)]
mod dep_order_tests;
#[cfg(test)]
mod desk_tests;
#[cfg(test)]
mod fixtures;
#[cfg(test)]
mod formula_core_tests;
#[cfg(test)]
mod sheet_recalc_tests;
#[cfg(test)]
mod steps_tests;
