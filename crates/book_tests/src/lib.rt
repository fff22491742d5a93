// Tests of listings and books, of their files and of the lines.
#![tactic(auto)]

#[cfg(test)]
mod tests;
