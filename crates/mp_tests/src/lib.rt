//! Tests of what is read, printed, edited and matched, over texts.
//!
//! They are of the first faults of texts; of files, terms, patterns and conditions as they are printed and read again;
//! of edits of terms; of plans and take tables; and of the items of the one-list, of the cursor, listed to the end and
//! from each token on, of the matcher of a commutative node, and of what one wildcard may take.
#![tactic(auto)]

#[cfg(test)]
mod alone;
#[cfg(test)]
mod case;
#[cfg(test)]
mod constants;
#[cfg(test)]
mod cursor_rows;
#[cfg(test)]
mod cursors;
#[cfg(test)]
mod edits;
#[cfg(test)]
mod faults;
#[cfg(test)]
mod first_rule;
#[cfg(test)]
mod items;
#[cfg(test)]
mod lists;
#[cfg(test)]
mod matched;
#[cfg(test)]
mod matchers;
#[cfg(test)]
mod patterns;
#[cfg(test)]
mod plans;
#[cfg(test)]
mod printed;
#[cfg(test)]
mod ranks;
#[cfg(test)]
mod reading;
#[cfg(test)]
mod roots;
#[cfg(test)]
mod takes;
#[cfg(test)]
mod wildcards;
