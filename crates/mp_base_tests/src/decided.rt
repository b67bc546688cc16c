//! Conditions on one substitution and on the trail that gives it, their answers worked out from the definitions.
ghost use Rattle.mp_pattern.specs.CondView.{cond_tree};
ghost use Rattle.mp_subst.specs.View.{subst_of};
ghost use Rattle.mp_subst.specs.Trail.{GoesWith};
ghost use Rattle.mp_cond.specs.Ready.{IsReady};
ghost use Rattle.mp_cond.specs.Verdict.{AreHeld};

use crate::bound::{plan, signature, table, trail};
use crate::conditions::{condition, headed};
use crate::values::check;
use mp_cond::{Verdict, decide, holds};
use mp_pattern::{Cond, Plan};
use mp_subst::{Subst, Trail};
use mp_table::Table;
use mp_term::Signature;
use std::alloc::Global;
use std::process::Abort;

// The values are those of `bound::VALUES`: x is a, n is 7, t is f(g(a), b), w is f(b, a) and u is f(b, g(a)); y is
// (a), p is (b, a), q is (f(a, b), g(b)) and e is (); m is {a}, z is {a, b} and o is {}. The table holds neither w nor
// u. A line is a condition: an atom and what it is over, or `&` for both, `|` for either and `!` for neither of two
// numbers being 1. It holds in the first table, and doesn't in the second.
const HOLDING: &str = "\
same $x a\n\
same $y a\n\
same $m a\n\
same $p $z\n\
same $z $p\n\
same $e $o\n\
same $w $w\n\
less $x b\n\
less b $t\n\
less B(ab) $w\n\
less $w $t\n\
less $w $u\n\
free C(b) $t\n\
free $t C(a)\n\
free $y C(b)\n\
free $e a\n\
free a $o\n\
free C(a) $w\n\
free $w $u\n\
free $w $t\n\
num $n\n\
num $e\n\
v $z\n\
w $o\n\
F $t\n\
F $w\n\
G C(b)\n\
G $e\n\
== #$x 1\n\
== #$q 2\n\
== #$z 2\n\
== #$e 0\n\
== #$w 1\n\
== @$x 1\n\
== @$t 4\n\
== @C(C(a)) 3\n\
== @$q 5\n\
== @$o 0\n\
== @$w 3\n\
== @$u 4\n\
< #$y 2\n\
<= #$p 2\n\
> 3 #$p\n\
>= 2 #$p\n\
!= 1 2\n\
& 1 1\n\
| 0 1\n\
| 1 0\n\
| 1 1\n\
! 0 0";

const FAILING: &str = "\
same $x b\n\
same $p a\n\
same $z $m\n\
same $e $y\n\
same $w $u\n\
same $w B(ab)\n\
same $m $w\n\
less b $x\n\
less a $x\n\
less $y b\n\
less a $p\n\
less $m b\n\
less $w B(ab)\n\
less $t $w\n\
less $u $w\n\
less $w $p\n\
free a $t\n\
free b $t\n\
free C(a) $t\n\
free B(C(a)b) $t\n\
free $p C(b)\n\
free a $q\n\
free b $w\n\
free C(a) $u\n\
free $w $w\n\
num $x\n\
v c\n\
v C(a)\n\
v $w\n\
w a\n\
F $q\n\
F $x\n\
G $t\n\
G $w\n\
< #$p 2\n\
<= 3 2\n\
> 2 2\n\
>= 1 2\n\
== 1 2\n\
!= 2 2\n\
& 0 0\n\
& 0 1\n\
& 1 0\n\
| 0 0\n\
! 0 1";

// Variables, whether each stands beside a comparison that fails, and whether it is headed by f, as far as that is
// known: j and l are unbound, and i is bound to the multiset {a, b} where its form is the tuple.
const HEADS: &[(u8, bool, Verdict)] = &[
    (b't', false, Verdict::Yes),
    (b'e', false, Verdict::Yes),
    (b'x', false, Verdict::No),
    (b'j', false, Verdict::Later),
    (b'i', false, Verdict::Later),
    (b'l', false, Verdict::Later),
    (b't', true, Verdict::No),
    (b'j', true, Verdict::Later),
    (b'i', true, Verdict::Later),
];

// The answer of a condition that is decided.
fn verdict(holds: bool) -> Verdict {
    if holds { Verdict::Yes } else { Verdict::No }
}

// Whether that is the answer of the condition over the trail's substitution, and over the trail.
fn has_answer(
    sig: &Signature,
    cond: &Cond,
    plan: &Plan,
    trail: &Trail,
    table: &Table,
    subst: &Subst,
    answer: bool,
) -> bool
    requires ready { IsReady (subst_of subst.now) (cond_tree cond.now) }
    requires held { AreHeld table.now (cond_tree cond.now) }
    requires goes_with { GoesWith table.now trail.now }
{
    holds(sig, cond, subst) == answer && decide(sig, cond, plan, trail, table) == verdict(answer)
}

// Whether the condition of the line has the answer.
fn is_line(
    rt: &impl Abort,
    alloc: Global,
    sig: &Signature,
    plan: &Plan,
    trail: &Trail,
    table: &Table,
    subst: &Subst,
    line: &str,
    answer: bool,
) -> bool
    requires { GoesWith table.now trail.now }
{
    let cond = condition(rt, alloc, line, table, subst);
    let cond = Box::new(alloc, cond).expect(rt, "memory");
    has_answer(sig, &cond, plan, trail, table, subst, answer)
}

// Sees that the condition of each line has the answer.
fn have_answer(
    rt: &impl Abort,
    alloc: Global,
    sig: &Signature,
    plan: &Plan,
    trail: &Trail,
    table: &Table,
    subst: &Subst,
    lines: &str,
    answer: bool,
)
    requires { GoesWith table.now trail.now }
{
    for line in lines.split('\n') {
        let is_line = is_line(rt, alloc, sig, plan, trail, table, subst, line, answer);
        check(rt, is_line, line);
    }
}

// Whether that is known of the row's variable.
fn is_head(
    rt: &impl Abort,
    alloc: Global,
    sig: &Signature,
    plan: &Plan,
    trail: &Trail,
    table: &Table,
    row: &(u8, bool, Verdict),
) -> bool
    requires { GoesWith table.now trail.now }
{
    let cond = headed(rt, alloc, row.0, row.1, table);
    let cond = Box::new(alloc, cond).expect(rt, "memory");
    decide(sig, &cond, plan, trail, table) == row.2
}

// Sees that it is so decided whether each variable is headed by f, or beside a comparison that fails.
fn heads_are_decided(
    rt: &impl Abort,
    alloc: Global,
    sig: &Signature,
    plan: &Plan,
    trail: &Trail,
    table: &Table,
)
    requires { GoesWith table.now trail.now }
{
    for row in HEADS {
        assert!(rt;
            is_head(rt, alloc, sig, plan, trail, table, row),
            "{}",
            row.0
        );
    }
}

#[test]
fn conditions_hold_and_are_decided(rt: HostRuntime) {
    let alloc = rt.alloc();
    let sig = signature(&rt, alloc);
    let plan = plan(&rt, alloc, &sig);
    let table = table(&rt, alloc, &sig);
    let trail = trail(&rt, alloc, &plan, &table);
    let subst = trail.to_subst(alloc, &table, &plan).expect(&rt, "memory");
    let subst = Box::new(alloc, subst).expect(&rt, "memory");
    have_answer(
        &rt, alloc, &sig, &plan, &trail, &table, &subst, HOLDING, true,
    );
    have_answer(
        &rt, alloc, &sig, &plan, &trail, &table, &subst, FAILING, false,
    );
    heads_are_decided(&rt, alloc, &sig, &plan, &trail, &table);
}
