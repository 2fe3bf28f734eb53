//! Tests of the calls of `sheet_cli`, for results that neither contracts nor the worked rows of the program cover.
//! Devices transfer a few bytes a call, or fail.
#![tactic(auto)]

#[cfg(test)]
mod known_host;
#[cfg(test)]
mod sheet_cli_tests;
