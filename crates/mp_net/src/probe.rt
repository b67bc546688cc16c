//! What is read of a subject.
ghost use Rattle.std.specs.Prelude.{◌≡◌, ◌<◌, ◌≤◌, ◌^◌};
ghost use Rattle.mp_table.specs.Table.{term_at, terms_at, HasRank, HasRanks};
ghost use Rattle.mp_table.specs.Subterms.{arguments};
ghost use Rattle.mp_table.specs.Reading.{IsHeadOf};
ghost use Rattle.mp_net.specs.Probe.{more_reads};

use mp_table::{Head, Rank, Table};
use std::marker::Model;

/// The subject of a table, with the number of its nodes that were read through the probe. Contracts see it as the
/// record `Probe` of `specs/Probe.antt`.
#[derive(Drop)]
pub struct Probe<'t> {
    table: &'t Table,
    reads: u64,
}

impl<'t> Model for Probe<'t> {
    ghost use Rattle.mp_net.specs.Probe as plain;
    ghost use Rattle.mp_net.specs.ProbeCode.{coded_probe};

    ghost Value = { plain.Probe };

    ghost coded = { coded_probe };

    ghost view = { λ p. record { table = p.table.now; reads = p.reads } };
}

// A node: its head, and the ranks of its arguments.
pub(crate) struct Node<'t> {
    pub(crate) head: Head<'t>,
    pub(crate) args: &'t [Rank],
}

impl<'t> Probe<'t> {
    /// A probe of the table's subject, through which nothing was read. It takes no memory.
    pub fn new(table: &'t Table) -> Probe<'t>
        ensures { result ≡ record { table = table.now; reads = 0 } }
    {
        Probe { table, reads: 0 }
    }

    /// How many nodes of the subject were read through the probe, a node as often as it was read, and at most the
    /// greatest `u64`.
    pub fn reads(&self) -> u64
        ensures reads { result ≡ self.now.reads }
        ensures limit { self.now.reads < 2 ^ 64 }
    {
        self.reads
    }

    // The table.
    pub(crate) fn table(&self) -> &'t Table
        ensures { result.now ≡ self.now.table }
    {
        self.table
    }

    // Reads a node: the one way to look at the subject.
    pub(crate) fn read(&mut self, rank: Rank) -> Node<'t>
        requires { HasRank self.old.table rank }
        ensures head { IsHeadOf result.head (term_at self.old.table rank) }
        ensures args { terms_at self.old.table result.args.now ≡ arguments (term_at self.old.table rank) }
        ensures within { HasRanks self.old.table result.args.now }
        ensures table { self.new.table ≡ self.old.table }
        ensures reads { self.new.reads ≡ more_reads self.old.reads 1 }
        ensures more { self.old.reads ≤ self.new.reads }
    {
        self.reads = self.reads.saturating_add(1);
        Node {
            head: self.table.head(rank),
            args: self.table.args(rank),
        }
    }
}
