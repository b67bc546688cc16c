//! Tests of the lowest libraries' public calls: devices, terms, tables, substitutions, choices, pairings, trails,
//! conditions, resume tokens, what texts are read as by tokens and grammar, and words of the command line.
#![tactic(auto)]

#[cfg(test)]
mod bound;
#[cfg(test)]
mod choices;
#[cfg(test)]
mod conditions;
#[cfg(test)]
mod decided;
#[cfg(test)]
mod devices;
#[cfg(test)]
mod net_tokens;
#[cfg(test)]
mod pairings;
#[cfg(test)]
mod substitutions;
#[cfg(test)]
mod syntax_faults;
#[cfg(test)]
mod syntax_texts;
#[cfg(test)]
mod syntax_trees;
#[cfg(test)]
mod tables;
#[cfg(test)]
mod terms;
#[cfg(test)]
mod tokens;
#[cfg(test)]
mod trails;
#[cfg(test)]
mod values;
#[cfg(test)]
mod words;
