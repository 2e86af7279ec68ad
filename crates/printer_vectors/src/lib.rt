// Worked examples as tests: of printers, step by step.
#![tactic(auto)]

#[cfg(test)]
mod printers;
