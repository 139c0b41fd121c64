//! Rules from lines, as the other tests use them.
use fields::Words;
use rules::{Rule, RuleFault, read_rule};
use std::alloc::Global;

// The rule that the line's words write.
pub(crate) fn read(alloc: Global, line: &str) -> Result<Rule, RuleFault> {
    match Words::split(alloc, line.as_bytes()) {
        Ok(words) => read_rule(alloc, &words, 0),
        Err(_) => Err(RuleFault::NoMemory),
    }
}
