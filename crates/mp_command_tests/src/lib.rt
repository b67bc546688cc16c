//! Tests of the command, and of many rules at once, which it stands on.
//!
//! They are runs of the command over files in memory, and over devices that fail; nets, with what they find on
//! subjects, how many nodes they read and the rules that they refuse; the tree of what rules begin with alike, with its
//! states and the walk over it; the match programs of rules, with the lines of their texts; and single steps of terms.
#![tactic(auto)]

#[cfg(test)]
mod accepted;
#[cfg(test)]
mod cases;
#[cfg(test)]
mod changes;
#[cfg(test)]
mod compiled;
#[cfg(test)]
mod failing;
#[cfg(test)]
mod listed;
#[cfg(test)]
mod net_rows;
#[cfg(test)]
mod nets;
#[cfg(test)]
mod netted;
#[cfg(test)]
mod program_rows;
#[cfg(test)]
mod programs;
#[cfg(test)]
mod ran;
#[cfg(test)]
mod runs;
#[cfg(test)]
mod states;
#[cfg(test)]
mod steps;
#[cfg(test)]
mod texts;
#[cfg(test)]
mod walk_rows;
#[cfg(test)]
mod walked;
#[cfg(test)]
mod walks;
