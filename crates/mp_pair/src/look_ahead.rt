//! The look ahead: a plan that gives later items classes, by augmenting paths.
ghost use Rattle.std.specs.Prelude.{◌≡◌, ◌<◌, length};

use mp_term::Memory;
use std::alloc::Global;

// A plan of the classes that the items could take, kept from one choice to the next, and what the last search for a
// class reached. Its contracts say no more than that its use is safe: what it says is tested before it is believed.
#[derive(Drop)]
pub(crate) struct LookAhead {
    // the class of each item in the plan
    plan: Vec<Option<u32>>,
    // how many items have each class in the plan
    loads: Vec<u32>,
    // the classes that the last search reached, and the item through which it reached each
    reached: Vec<bool>,
    through: Vec<usize>,
    // the items whose classes the last search looked at
    visited: Vec<bool>,
}

impl LookAhead {
    // The plan that gives no class to any of so many items. Memory where there is no room for it.
    pub(crate) fn new(alloc: Global, items: usize, classes: usize) -> Result<LookAhead, Memory> {
        let Ok(plan) = vec![in alloc; None; items] else {
            return Err(Memory);
        };
        let Ok(loads) = vec![in alloc; 0; classes] else {
            return Err(Memory);
        };
        let Ok(reached) = vec![in alloc; false; classes] else {
            return Err(Memory);
        };
        let Ok(through) = vec![in alloc; 0; classes] else {
            return Err(Memory);
        };
        let Ok(visited) = vec![in alloc; false; items] else {
            return Err(Memory);
        };
        Ok(LookAhead {
            plan,
            loads,
            reached,
            through,
            visited,
        })
    }

    // The classes that the last search for a class reached. Where it failed, each is full of items that may take no
    // other classes than these.
    pub(crate) fn reached(&self) -> &[bool]
        ensures { result.now ≡ self.now.reached.items }
    {
        self.reached.as_slice()
    }

    // Plans for all items after the item, which takes the class. False where a search for a class failed.
    pub(crate) fn plans_after(
        &mut self,
        left: &[Vec<u32>],
        capacities: &[u32],
        item: usize,
        class: u32,
    ) -> bool
        requires inside { item < length left.now }
    {
        self.assign(item, Some(class));
        if at(&self.loads, class as usize, 0) > at(capacities, class as usize, 0) {
            self.make_way(item, class);
        }
        self.plans_from(left, capacities, item + 1)
    }

    // Plans for the item with index `first` and all after it. False where a search for a class failed.
    pub(crate) fn plans_from(
        &mut self,
        left: &[Vec<u32>],
        capacities: &[u32],
        first: usize,
    ) -> bool {
        for item in first..left.len() {
            if at(&self.plan, item, None).is_none() && !self.find(left, capacities, first, item) {
                return false;
            }
        }
        true
    }

    // Gives the item the class in the plan, or none.
    fn assign(&mut self, item: usize, class: Option<u32>) {
        if let Some(old) = at(&self.plan, item, None) {
            let load = at(&self.loads, old as usize, 0);
            put(&mut self.loads, old as usize, load.saturating_sub(1));
        }
        if let Some(new) = class {
            let load = at(&self.loads, new as usize, 0);
            put(&mut self.loads, new as usize, load.saturating_add(1));
        }
        put(&mut self.plan, item, class);
    }

    // Takes the class from the last item after the item that has it in the plan.
    fn make_way(&mut self, item: usize, class: u32) {
        for other in (item..self.plan.len()).rev() {
            if other > item && at(&self.plan, other, None) == Some(class) {
                self.assign(other, None);
                return;
            }
        }
    }

    // Finds a class for the item, where those from `first` on may be given other ones. False where there is no such
    // class.
    fn find(&mut self, left: &[Vec<u32>], capacities: &[u32], first: usize, item: usize) -> bool {
        clear(&mut self.reached);
        clear(&mut self.visited);
        let mut current = item;
        for _ in 0..left.len() {
            put(&mut self.visited, current, true);
            if let Some(classes) = left.get(current)
                && let Some(end) = self.look(classes, capacities, current)
            {
                self.shift(item, end);
                return true;
            }
            match self.waiting(first) {
                Some(other) => current = other,
                None => return false,
            }
        }
        false
    }

    // Reaches the classes of the item, up to one that has room.
    fn look(&mut self, classes: &[u32], capacities: &[u32], item: usize) -> Option<u32> {
        for class in classes {
            let i = *class as usize;
            if !at(&self.reached, i, true) {
                put(&mut self.reached, i, true);
                put(&mut self.through, i, item);
                if at(&self.loads, i, 0) < at(capacities, i, 0) {
                    return Some(*class);
                }
            }
        }
        None
    }

    // An item from `first` on whose planned class was reached and which was not looked at yet.
    fn waiting(&self, first: usize) -> Option<usize> {
        for other in first..self.plan.len() {
            if !at(&self.visited, other, true)
                && let Some(class) = at(&self.plan, other, None)
                && at(&self.reached, class as usize, false)
            {
                return Some(other);
            }
        }
        None
    }

    // Gives each item on the way from the item to the class the class through which the way goes on.
    fn shift(&mut self, item: usize, end: u32) {
        let mut class = end;
        for _ in 0..self.plan.len() {
            let through = at(&self.through, class as usize, item);
            let old = at(&self.plan, through, None);
            self.assign(through, Some(class));
            match old {
                Some(next) => class = next,
                None => return,
            }
        }
    }
}

// The value at the index, or else the default.
fn at<T: Copy>(list: &[T], index: usize, default: T) -> T {
    match list.get(index) {
        Some(value) => *value,
        None => default,
    }
}

// Writes the value at the index, where there is one.
fn put<T: Copy>(list: &mut [T], index: usize, value: T)
    ensures { length list.new ≡ length list.old }
{
    if index < list.len() {
        list[index] = value;
    }
}

// Takes the mark from each place.
fn clear(marks: &mut [bool]) {
    for mark in marks.iter_mut() {
        *mark = false;
    }
}
