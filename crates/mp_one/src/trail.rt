//! The substitution so far.
ghost use Rattle.std.specs.Prelude.{◌≡◌, option_map, IfOk};
ghost use Rattle.mp_theory.specs.Solve as solve;
ghost use Rattle.mp_theory.specs.Machine as machine;
ghost use Rattle.mp_one.specs.Stack.{child_of, entry_of};
ghost use Rattle.mp_pattern.specs.Value as values;
ghost use Rattle.mp_one.specs.Trail.{trail_binding, trail_of, outcome};
ghost use Rattle.mp_one.specs.TrailValue.{trail_value};

use crate::stack::{Place, Take};
use crate::terms::push;
use crate::trail_value::{Merged, TrailValue, copy_value, merge, value_by_take};
use mp_pattern::Pattern;
use mp_term::{Memory, Name, Signature};
use std::alloc::Global;

/// A variable and its value.
#[derive(Drop)]
pub struct TrailBinding<'a> {
    pub name: &'a Name,
    pub value: TrailValue<'a>,
}

/// What an entry makes of the substitution so far: a clash, the same, or another one.
#[derive(Drop)]
pub enum Extended<'a> {
    Clash,
    Same,
    Changed(Vec<TrailBinding<'a>>),
}

// The binding with the value of both uses.
fn rebound<'a>(
    alloc: Global,
    bound: &TrailBinding<'a>,
    value: &TrailValue<'a>,
) -> Result<Option<TrailBinding<'a>>, Memory>
    ensures { IfOk result (λ o. option_map trail_binding o
        ≡ option_map (λ u. record { name = bound.now.name.now; value = u })
        (values.merge (trail_value bound.now.value) (trail_value value.now))) }
{
    let held = match merge(alloc, &bound.value, value)? {
        Merged::Clash => return Ok(None),
        Merged::First => copy_value(alloc, &bound.value)?,
        Merged::Second => copy_value(alloc, value)?,
    };
    Ok(Some(TrailBinding {
        name: bound.name,
        value: held,
    }))
}

// The substitution with the value for the name, merged with the one it had.
fn bind<'a>(
    alloc: Global,
    trail: &[TrailBinding<'a>],
    name: &'a Name,
    value: &TrailValue<'a>,
) -> Result<Option<Vec<TrailBinding<'a>>>, Memory>
    ensures { IfOk result (λ o. option_map (λ t. trail_of t.items) o
        ≡ solve.bind (trail_of trail.now) name.now (trail_value value.now)) }
{
    let mut after = Vec::new(alloc);
    let mut is_bound = false;
    for bound in trail {
        if !is_bound && *bound.name == *name {
            is_bound = true;
            match rebound(alloc, bound, value)? {
                None => return Ok(None),
                Some(both) => push(&mut after, both)?,
            }
        } else {
            push(
                &mut after,
                TrailBinding {
                    name: bound.name,
                    value: copy_value(alloc, &bound.value)?,
                },
            )?;
        }
    }
    if !is_bound {
        push(
            &mut after,
            TrailBinding {
                name,
                value: copy_value(alloc, value)?,
            },
        )?;
    }
    Ok(Some(after))
}

/// What the entry makes of the substitution so far.
pub fn extend<'a>(
    alloc: Global,
    sig: &Signature,
    place: &Place<'a>,
    entry: &Take<'a>,
    trail: &[TrailBinding<'a>],
) -> Result<Extended<'a>, Memory>
    ensures { IfOk result (λ o. outcome (trail_of trail.now) o
        ≡ solve.solve sig.now (trail_of trail.now) (machine.said (child_of place.now) (entry_of entry.now))) }
{
    let Pattern::Wild(shape, Some(name)) = place.child else {
        return Ok(Extended::Same);
    };
    let Some(value) = value_by_take(alloc, sig, place.under, shape, &entry.terms)? else {
        return Ok(Extended::Clash);
    };
    match bind(alloc, trail, name, &value)? {
        None => Ok(Extended::Clash),
        Some(after) => Ok(Extended::Changed(after)),
    }
}
