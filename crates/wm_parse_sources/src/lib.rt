//! Sources and what their tokens are: tests of the lexer and the parser together.
#![tactic(auto)]

#[cfg(test)]
mod tests;
