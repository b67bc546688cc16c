//! Prints the substitution of a trail straight from its ranks. It takes no memory.

ghost use Rattle.std.specs.Prelude.{◌≡◌, map, codes};
ghost use Rattle.mp_io.specs.Moments.{sunk};
ghost use Rattle.mp_io.specs.Printing.{Prints};
ghost use Rattle.mp_io.specs.Writing.{Puts};
ghost use Rattle.mp_subst.specs.Bound.{bound_of, value_in};
ghost use Rattle.mp_subst.specs.Trail.{subst_in};
ghost use Rattle.mp_print.specs.Printing.{binding_text, separated, subst_text};

use crate::rank_printer::put_bound;
use mp_io::{Failed, Sink, Writer};
use mp_pattern::Plan;
use mp_subst::{Bound, Trail};
use mp_table::Table;
use mp_term::{Name, Signature};

/// Appends the text of the substitution of a trail over a table to the sink (`subst_in` of mp_subst's
/// `specs/Trail.antt`): the variables of the plan that are bound, each with its value, as `write_subst` writes them.
///
/// `Failed`: the sink's count of faults rose, and a front of the text was appended.
pub fn write_trail<K: Sink>(
    sig: &Signature,
    table: &Table,
    plan: &Plan,
    trail: &Trail,
    sink: &mut K,
) -> Result<(), Failed>
    ensures { Prints (sunk K.Sink sink.old sink.new)
        (subst_text sig.now (subst_in table.now plan.now.variables trail.now)) result }
{
    let mut out = Writer::new(sink);
    put_trail(sig, table, plan, trail, &mut out);
    out.finish()
}

/// Puts the text of the substitution of a trail, as `write_trail` writes it.
pub fn put_trail<K: Sink>(
    sig: &Signature,
    table: &Table,
    plan: &Plan,
    trail: &Trail,
    out: &mut Writer<'_, K>,
)
    ensures { Puts K.Sink out.old out.new
        (subst_text sig.now (subst_in table.now plan.now.variables trail.now)) }
{
    out.put(b"{");
    put_variables(sig, table, plan, trail, out);
    out.put(b"}");
}

/// Puts the variables that are bound, with a comma between each two.
fn put_variables<K: Sink>(
    sig: &Signature,
    table: &Table,
    plan: &Plan,
    trail: &Trail,
    out: &mut Writer<'_, K>,
)
    ensures { Puts K.Sink out.old out.new (separated (codes ", ")
        (map (binding_text sig.now) (subst_in table.now plan.now.variables trail.now))) }
{
    let mut gap = b"".as_slice();
    for var in 0..plan.vars() {
        let Some(bound) = trail.binding(var) else {
            continue;
        };
        let Some(name) = plan.var_name(var) else {
            continue;
        };
        out.put(gap);
        put_variable(sig, table, name, &bound, out);
        gap = b", ".as_slice();
    }
}

/// Puts a variable and its value.
fn put_variable<K: Sink>(
    sig: &Signature,
    table: &Table,
    name: &Name,
    bound: &Bound<'_>,
    out: &mut Writer<'_, K>,
)
    ensures { Puts K.Sink out.old out.new (binding_text sig.now
        (record { name = name.now; value = value_in table.now (bound_of bound.now) })) }
{
    out.put(name.bytes());
    out.put(b" -> ");
    put_bound(sig, table, bound, out);
}
