// Scripts with every command and with every mistake.
#![tactic(auto)]

#[cfg(test)]
mod commands;
#[cfg(test)]
mod mistakes;
