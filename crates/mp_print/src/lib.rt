//! Values to text: the printed text of terms, patterns, templates, conditions, edits, substitutions and signatures.
//!
//! A call `write_..` writes a text to a sink. A call `put_..` puts it to a writer, behind what was put before, so that
//! a line can be put of several texts. A call `printed_..` gives it in memory.
#![tactic(auto)]

mod cond_printer;
mod edit_printer;
mod pattern_printer;
mod printed;
mod printer;
mod rank_printer;
mod rank_texts;
mod signature_printer;
mod subst_printer;
mod template_printer;
mod text_sink;
mod trail_printer;
mod tree_printer;

pub use cond_printer::{op_name, put_cond, write_cond};
pub use edit_printer::put_edits;
pub use pattern_printer::{kind_name, put_pattern, write_pattern};
pub use printed::{printed_cond, printed_pattern, printed_signature, printed_term};
pub use printer::{put_term, write_term};
pub use rank_printer::{put_bound, put_rank};
pub use rank_texts::RankTexts;
pub use signature_printer::{put_head, put_signature, write_signature};
pub use subst_printer::{put_subst, write_subst};
pub use template_printer::put_template;
pub use text_sink::TextSink;
pub use trail_printer::{put_trail, write_trail};
