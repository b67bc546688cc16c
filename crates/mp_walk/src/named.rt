//! The values of a trail, called by names that are given.
ghost use Rattle.std.specs.Prelude.{◌≡◌, ◌≤◌, length, IfOk};
ghost use Rattle.mp_pattern.specs.declared.limits.TheConstants.{MAX_VARIABLES};
ghost use Rattle.mp_subst.specs.Trail.{GoesWith, subst_in};
ghost use Rattle.mp_subst.specs.View.{subst_of};
ghost use Rattle.mp_walk.specs.NamedItems.{called};

use mp_subst::{Binding, Bindings, Subst, Trail};
use mp_table::Table;
use mp_term::{Memory, Names};
use std::alloc::Global;

/// The values of the variables in order that are bound, called by the names. `Memory` comes where there is no room for
/// them.
pub fn named_values(
    alloc: Global,
    trail: &Trail,
    table: &Table,
    names: &Names,
) -> Result<Subst, Memory>
    requires goes { GoesWith table.now trail.now }
    requires few { length names.now ≤ MAX_VARIABLES }
    ensures { IfOk result (λ s. subst_of s ≡ subst_in table.now (called names.now) trail.now) }
{
    let mut bindings = Bindings::new(alloc);
    for var in 0..names.len() as u32 {
        let Some(bound) = trail.binding(var) else {
            continue;
        };
        let Some(name) = names.get(var as usize) else {
            unreachable!()
        };
        let name = name.copy(alloc)?;
        let value = bound.to_value(alloc, table)?;
        bindings.push(Binding { name, value })?;
    }
    Ok(Subst { bindings })
}
