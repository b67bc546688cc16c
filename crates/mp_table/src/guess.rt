//! Guesses at places, by a digest of the term that is looked for.
use mp_term::{Memory, Term};
use std::alloc::Global;

// The places in a row. They are kept in rows, since a row is made at once.
const ROW: usize = 16;

// Places, each kept where a digest points. A later digest may point to the same, so a place that is read is only a
// guess, which the reader has to try.
#[derive(Drop)]
pub(crate) struct Guesses {
    rows: Vec<[usize; ROW]>,
}

impl Guesses {
    // Room for guesses at the places of so many things, twice as many at least. As long as none is kept, a place is
    // read at which nothing stands. An odd digest and an even one never point to the same.
    pub(crate) fn new(alloc: Global, count: usize) -> Result<Guesses, Memory> {
        let rows = vec![in alloc; [usize::MAX; ROW]; count / (ROW / 2) + 1]?;
        Ok(Guesses { rows })
    }

    // The place that a digest points to.
    pub(crate) fn at(&self, digest: usize) -> usize {
        let count = self.rows.len();
        if count == 0 {
            return 0;
        }
        self.rows[digest / ROW % count][digest % ROW]
    }

    // Keeps a place.
    pub(crate) fn put(&mut self, digest: usize, place: usize) {
        let count = self.rows.len();
        if count == 0 {
            return;
        }
        self.rows[digest / ROW % count][digest % ROW] = place;
    }
}

// A digest of the term's head.
fn head_digest(term: &Term) -> usize {
    match term {
        Term::Sym(name) => {
            let mut digest: usize = 0;
            for byte in name.bytes() {
                digest = digest.wrapping_mul(31).wrapping_add(*byte as usize);
            }
            digest
        }
        Term::App(op, args) => (op.0 as usize).wrapping_mul(31).wrapping_add(args.len()),
    }
}

// A digest of the term, even for a symbol, else of its head and of those of its first arguments.
pub(crate) fn digest_of(term: &Term) -> usize {
    let mut digest = head_digest(term);
    match term {
        Term::Sym(_) => digest.wrapping_mul(2),
        Term::App(_, args) => {
            for arg in args.as_slice().iter().take(4) {
                digest = digest.wrapping_mul(31).wrapping_add(head_digest(arg));
            }
            digest.wrapping_mul(2).wrapping_add(1)
        }
    }
}
