//! How many terms a child may take, by the values of the trail and by the uses of its variable.
ghost use Rattle.std.specs.Prelude.{◌≡◌, ◌≤◌, ◌*◌, ℕ, Option, IfSome, IsTrue, min};
ghost use Rattle.mp_pattern.specs.View.{pattern_tree};
ghost use Rattle.mp_subst.specs.Trail.{GoesWith};
ghost use Rattle.mp_search.specs.Bounds.{AreBounds, IsFree, TakesOne};
ghost use Rattle.mp_search.specs.Frames.{above};
ghost use Rattle.mp_search.specs.Query.{IsQuery};
ghost use Rattle.mp_search.specs.Reading.{subst_of};
ghost use Rattle.mp_search.specs.Site.{IsSite};

use crate::lengths::{least, most};
use crate::query::Query;
use crate::rivals::is_first;
use crate::shares::{node_behind, shares_of};
use crate::site::Site;
use mp_pattern::Pattern;
use mp_subst::Trail;

// How many siblings take the same list, with the child itself, and the least and the greatest number of terms in it.
#[derive(Clone, Copy)]
pub(crate) struct Bounds {
    pub(crate) uses: usize,
    pub(crate) least: usize,
    pub(crate) most: usize,
}

// The least number of which so many make up the total, if there is one.
fn least_share(total: Option<usize>, uses: usize) -> usize
    requires { 1 ≤ uses }
    ensures { (l : ℕ) → IfSome total (λ t. t ≤ uses * l) → result ≤ l }
{
    match total {
        None => 0,
        Some(total) => {
            let share = total / uses;
            if share * uses < total {
                share + 1
            } else {
                share
            }
        }
    }
}

// The lesser of two numbers, of which one may be missing.
fn at_most(bound: Option<usize>, count: usize) -> usize
    ensures { (l : ℕ) → IfSome bound (λ m. l ≤ m) → l ≤ count → l ≤ result }
{
    match bound {
        None => count,
        Some(most) => most.min(count),
    }
}

// Whether the child is an application behind the first child. It takes one term, and whether there are as many terms as
// the children take was looked at before the first.
fn is_later_application(query: &Query<'_>, site: &Site<'_>) -> bool
    ensures { IsTrue result → TakesOne query.now.sig.now (above site.now.under) (pattern_tree site.now.child.now) }
{
    match site.child {
        Pattern::App(_, _) => !is_first(query, site.node),
        _ => false,
    }
}

// The bounds of the child, whose variable has that number, if it has one that isn't bound, and isn't optional.
pub(crate) fn bounds_of(
    query: &Query<'_>,
    site: &Site<'_>,
    var: Option<u32>,
    trail: &Trail,
) -> Bounds
    requires query { IsQuery query.now }
    requires site { IsSite query.now site.now }
    requires trail { GoesWith query.now.table.now trail.now }
    requires var { IsFree query.now site.now (subst_of query.now trail.now) var }
    ensures { AreBounds query.now site.now (subst_of query.now trail.now) result }
{
    if is_later_application(query, site) {
        return Bounds {
            uses: 1,
            least: 1,
            most: 1,
        };
    }
    let _ = query.plan.len();
    let next = node_behind(query, site.child, site.node);
    let count = site.left.len();
    let shares = shares_of(query, site.under, site.later, next, var, count, trail);
    let uses = shares.uses + 1;
    let low = least_share(shares.after_most, uses);
    Bounds {
        uses,
        least: least(site.child).max(low),
        most: at_most(
            most(query.sig, site.under, site.child),
            shares.after_least / uses,
        ),
    }
}
