// Worked examples as tests: of the wire, whose words were written by hand from the format, and of the transports.
#![tactic(auto)]

#[cfg(test)]
mod carried;
#[cfg(test)]
mod tests;
