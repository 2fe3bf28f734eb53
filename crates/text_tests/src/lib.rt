//! Tests of the calls that read and write text, for results that neither contracts nor the worked rows of the program
//! cover. They stand on no formula, so their proofs load little.
#![tactic(auto)]

#[cfg(test)]
mod apl_expr_tests;
#[cfg(test)]
mod apl_tokens_tests;
#[cfg(test)]
mod array_text_tests;
#[cfg(test)]
mod fixtures;
