//! The node that a search is below.
ghost use Rattle.std.specs.Prelude.{◌≡◌};
ghost use Rattle.mp_term.specs.Order.{tree_cmp};
ghost use Rattle.mp_term.specs.Sorting.{sorted};
ghost use Rattle.mp_table.specs.Table.{HasRank, HasRanks, IsTable, term_at, terms_at};
ghost use Rattle.mp_ac.specs.Args as plain;
ghost use Rattle.mp_ac.specs.Candidates.{IsNodeOf, given_terms};

use crate::args::Args;
use mp_table::{Rank, Table};

// The node that a search is below: its rank, whether the children take it alone, and what they take together.
#[derive(Clone, Copy)]
pub(crate) struct Node<'a> {
    pub(crate) node: Rank,
    pub(crate) alone: bool,
    pub(crate) args: Args<'a>,
}

// What the children take together: the arguments of the term, or the term alone.
fn args_of(table: &Table, node: Rank, alone: bool) -> Args<'_>
    requires { HasRank table.now node }
    ensures terms { terms_at table.now (plain.args_of result) ≡ given_terms (term_at table.now node) alone }
    ensures ranks { HasRanks table.now (plain.args_of result) }
{
    if alone {
        Args::Alone(node)
    } else {
        Args::These(table.args(node))
    }
}

impl<'a> Node<'a> {
    // The node of the rank, where what its children take together stands in order.
    pub(crate) fn new(table: &'a Table, node: Rank, alone: bool) -> Node<'a>
        requires node { HasRank table.now node }
        requires order { let ts = given_terms (term_at table.now node) alone in sorted tree_cmp ts ≡ ts }
        ensures node { IsNodeOf table.now result }
        ensures is { (result.node ≡ node) × (result.alone ≡ alone) }
        ensures table { IsTable table.now }
    {
        // What holds of each table.
        table.len();
        Node {
            node,
            alone,
            args: args_of(table, node, alone),
        }
    }
}
