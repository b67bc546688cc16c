//! Nets of syntactic rules.
ghost use Rattle.std.specs.Prelude.{◌≡◌, ◌≤◌, ◌<◌, ◌*◌, ◌++◌, ◌⊎◌, ℕ, Some, length, map, take, drop, option_map, IfOk};
ghost use Rattle.std.specs.Prelude.{IfErr, IfSome, OnOk};
ghost use Rattle.std.specs.List.{AllByRecursion, filter_map};
ghost use Rattle.std.specs.Prelude.{MatchResult, Err};
ghost use Rattle.mp_term.specs.Normal.{IsNormal};
ghost use Rattle.mp_term.specs.Size.{node_count};
ghost use Rattle.mp_pattern.specs.Lists.{IsAllList};
ghost use Rattle.mp_pattern.specs.RuleView.{rule_tree};
ghost use Rattle.mp_pattern.specs.Size.{pattern_nodes};
ghost use Rattle.mp_pattern.specs.SoundRule.{AreSoundRules};
ghost use Rattle.mp_table.specs.Table.{IsTable, subject_of};
ghost use Rattle.mp_net.specs.Items.{tables};
ghost use Rattle.mp_net.specs.NetOf.{IsGroup, AreNets};
ghost use Rattle.mp_net.specs.Nets.{first_not_syntactic, rule_marks};
ghost use Rattle.mp_net.specs.Probe.{more_reads};
ghost use Rattle.mp_net.specs.Walk.{visits, IsSeen, IsFound, tested_pair};
ghost use Rattle.mp_net.specs.AllList.{pairs_from};
ghost use Rattle.mp_pattern.specs.declared.limits.TheConstants.{MAX_PATTERN_NODES, MAX_RULES};
ghost use Rattle.mp_net.specs.declared.fault.NetFault.TheVariants as fault;

use crate::build::Net;
use crate::fault::NetFault;
use crate::group::largest_group;
use crate::mark::{Mark, push_marks};
use crate::pairs::{push_pair, tested};
use crate::probe::Probe;
use crate::visit::{Seen, visit};
use mp_pattern::{Rule, Rules, is_syntactic};
use mp_subst::Pairs;
use mp_table::Table;
use mp_term::{Memory, Signature};
use std::alloc::Global;
use std::marker::Model;

/// Syntactic rules as deterministic automata over the preorder of a subject, each of which has at most 4,096 states and
/// finds the rules of a group. The groups are the rules one after the other, each as large as such an automaton was
/// found for. Contracts see them as the record `Nets` of `specs/Nets.antt`: the signature, the rules, and the number of
/// the automata.
#[derive(Drop)]
pub struct Nets<'a> {
    sig: &'a Signature,
    rules: &'a Rules,
    nets: Vec<Net<'a>>,
}

impl<'a> Model for Nets<'a> {
    ghost use Rattle.mp_net.specs.Nets as plain;
    ghost use Rattle.mp_net.specs.NetsCode.{coded_nets};

    ghost Value = { plain.Nets };

    ghost coded = { coded_nets };

    ghost use Rattle.mp_net.specs.NetsView.{nets_view, IsNets};

    ghost view = { nets_view };

    ghost invariant = { IsNets };
}

// The first rule that isn't syntactic.
fn first_not_syntactic(sig: &Signature, rules: &[Rule]) -> Option<usize>
    ensures index { result ≡ first_not_syntactic sig.now (map rule_tree rules.now) }
    ensures within { IfSome result (λ k. k < length rules.now) }
{
    rules
        .iter()
        .position(|rule| !is_syntactic(sig, &rule.pattern))
}

// What the patterns of the rules ask.
fn marks_of<'a>(alloc: Global, rules: &'a [Rule]) -> Result<Vec<Vec<Mark<'a>>>, Memory>
    ensures { IfOk result (λ ms. tables ms.items ≡ rule_marks (map rule_tree rules.now)) }
{
    let mut all = Vec::new(alloc);
    for rule in rules {
        let mut marks = Vec::new(alloc);
        push_marks(&mut marks, &rule.pattern)?;
        all.push(marks)?;
    }
    Ok(all)
}

// The nets of the groups of the rules.
fn nets_of<'a>(alloc: Global, rules: &'a [Rule]) -> Result<Vec<Net<'a>>, Memory>
    requires few { length rules.now ≤ MAX_RULES }
    requires short { AllByRecursion (λ r. pattern_nodes r.pattern ≤ MAX_PATTERN_NODES) (map rule_tree rules.now) }
    ensures { IfOk result (λ ns. AreNets 0 (rule_marks (map rule_tree rules.now)) ns.items) }
{
    let marks = marks_of(alloc, rules)?;
    let mut nets = Vec::new(alloc);
    let mut first = 0;
    while first < marks.len() {
        let group = largest_group(alloc, &marks, first)?;
        nets.push(group.net)?;
        first += group.count;
    }
    Ok(nets)
}

impl<'a> Nets<'a> {
    /// The nets of the rules, which must be sound over the signature (`AreSoundRules` of mp_pattern's
    /// `specs/SoundRule.antt`). `NotSyntactic` comes exactly where some rule isn't syntactic (`is_syntactic` of
    /// mp_pattern's `specs/Syntactic.antt`), with the least number of such a rule, counted from 0; `Memory` comes where
    /// there is no room for the nets.
    pub fn build(alloc: Global, sig: &'a Signature, rules: &'a Rules) -> Result<Nets<'a>, NetFault>
        requires sound { AreSoundRules sig.now rules.now }
        ensures sig { IfOk result (λ n. n.sig ≡ sig.now) }
        ensures rules { IfOk result (λ n. n.rules ≡ rules.now) }
        ensures refused { IfSome (first_not_syntactic sig.now rules.now)
            (λ k. MatchResult result (λ n. ⊥) (λ e. e ≡ fault.NotSyntactic k)) }
        ensures only_refused { IfErr result (λ e.
            (option_map fault.NotSyntactic (first_not_syntactic sig.now rules.now) ≡ Some e) ⊎ (e ≡ fault.Memory)) }
    {
        if let Some(rule) = first_not_syntactic(sig, rules.as_slice()) {
            return Err(NetFault::NotSyntactic { rule: rule as u32 });
        }
        let nets = nets_of(alloc, rules.as_slice())?;
        Ok(Nets { sig, rules, nets })
    }

    /// How many automata there are: at most as many as there are rules.
    pub fn groups(&self) -> u32
        ensures count { result ≡ self.now.groups }
        ensures few { result ≤ length self.now.rules }
    {
        self.nets.len() as u32
    }

    // Adds the pairs of the rules of the numbers, which have the shape, by what was read of the subject.
    fn push_tested(
        &self,
        alloc: Global,
        table: &Table,
        numbers: &[u32],
        trace: &[Seen<'_>],
        pairs: &mut Pairs,
    ) -> Result<(), Memory>
        requires table { IsTable table.now }
        requires seen { AllByRecursion (IsSeen table.now) trace.now }
        requires numbers { AllByRecursion
            (IsFound self.now.rules (subject_of table.now) (visits table.now trace.now)) numbers.now }
        ensures { OnOk result (pairs.new ≡ pairs.old
            ++ filter_map (tested_pair self.now.sig (subject_of table.now) self.now.rules) numbers.now) }
    {
        for number in numbers {
            let Some(rule) = self.rules.get(*number as usize) else {
                unreachable!()
            };
            let subst = tested(alloc, self.sig, table, rule, trace)?;
            push_pair(pairs, *number, subst)?;
        }
        Ok(())
    }

    // Adds what the rules of one net admit.
    fn push_matches(
        &self,
        alloc: Global,
        net: &Net<'a>,
        probe: &mut Probe<'_>,
        pairs: &mut Pairs,
    ) -> Result<(), Memory>
        requires net { (i : ℕ) × (count : ℕ) × IsGroup i (drop i (rule_marks self.now.rules)) count net.now }
        ensures pairs { OnOk result ((i count : ℕ) → IsGroup i (drop i (rule_marks self.now.rules)) count net.now
            → pairs.new ≡ pairs.old ++ pairs_from self.now.sig (subject_of probe.old.table) i
            (take count (drop i self.now.rules))) }
        ensures table { probe.new.table ≡ probe.old.table }
        ensures least_reads { probe.old.reads ≤ probe.new.reads }
        ensures most_reads { probe.new.reads
            ≤ more_reads probe.old.reads (node_count (subject_of probe.old.table)) }
    {
        let table = probe.table();
        // The length is asked for what holds of every table.
        let _ = table.len();
        let mut trace = Vec::new(alloc);
        let Some(state) = visit(net, probe, table.root(), 0, &mut trace)? else {
            return Ok(());
        };
        let accepted = &net.states[state as usize].accepted;
        self.push_tested(alloc, table, accepted, &trace, pairs)
    }

    /// All that the rules admit on the probe's subject, each pair once, in order (`IsAllList` of mp_pattern's
    /// `specs/Lists.antt`). The subject must be normal over the signature of the nets. For each group it reads at most
    /// as many nodes as the subject has. `Memory` comes where there is no room for the pairs: the probe has its table
    /// then, and may have read.
    pub fn matches(&self, alloc: Global, probe: &mut Probe<'_>) -> Result<Pairs, Memory>
        requires normal { IsNormal self.now.sig (subject_of probe.old.table) }
        ensures pairs { IfOk result (IsAllList self.now.sig self.now.rules (subject_of probe.old.table)) }
        ensures table { probe.new.table ≡ probe.old.table }
        ensures least_reads { probe.old.reads ≤ probe.new.reads }
        ensures most_reads { probe.new.reads
            ≤ more_reads probe.old.reads (self.now.groups * node_count (subject_of probe.old.table)) }
    {
        // The number of reads is asked for what holds of it.
        let _ = probe.reads();
        let mut pairs = Pairs::new(alloc);
        for net in &self.nets {
            self.push_matches(alloc, net, probe, &mut pairs)?;
        }
        Ok(pairs)
    }
}
