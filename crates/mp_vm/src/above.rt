//! What is known of the tokens of a path.

ghost use Rattle.std.specs.Prelude.{◌≡◌, ◌<◌, ◌-◌, ◌^◌, [], ◌∷◌, ◌++◌, map, min, reverse, IfOk, OnOk, IsTrue};
ghost use Rattle.std.specs.Prelude.{ℕ, Some, not, ◌&&◌, take, length};
ghost use Rattle.mp_term.specs.Signature.{Sig};
ghost use Rattle.mp_pattern.specs.NetTokenView.{net_token};
ghost use Rattle.mp_pattern.specs.Size.{pattern_nodes};
ghost use Rattle.mp_pattern.specs.View.{pattern_tree};
ghost use Rattle.mp_walk.specs.SoundTokens.{token_nodes};
ghost use Rattle.mp_walk.specs.Walkable.{Path};
ghost use Rattle.mp_program.specs.TokenPaths.{is_loose_token, enters_comm, is_right_path, open_after, open_along};
ghost use Rattle.mp_vm.specs.Known.{IsGoodPath, Knows, IsGathered, opened, tokens_in, open_before};
ghost use Rattle.mp_vm.specs.Known.{IsBefore, IsBack};
ghost use Rattle.mp_vm.specs.Looks.{look_wildcard, where_true};

use crate::look::{Look, Use, add_token_looks, is_loose, wildcard_of};
use mp_pattern::{NetToken, Pattern};
use mp_term::{Memory, OpId, Signature};
use std::alloc::Global;

// What is known of a right path (`Knows` of specs/Known.antt): how many nodes it has, the wildcards of its variables by
// their numbers, the operations that are open, the innermost last, and that it has no token yet. There is room for the
// occurrences of variables in a token.
#[derive(Drop)]
pub(crate) struct Above<'a> {
    nodes: u64,
    pub(crate) looks: Vec<Look<'a>>,
    pub(crate) open: Vec<OpId>,
    is_first: bool,
    uses: Vec<Use<'a>>,
}

// What is known before a token that comes behind others.
#[derive(Clone, Copy)]
pub(crate) struct Before<'a> {
    token: &'a NetToken,
    nodes: u64,
    looks: usize,
    is_first: bool,
}

// How many nodes a pattern has, or the greatest `u64` where there are more.
fn pattern_nodes(pattern: &Pattern) -> u64
    ensures { result ≡ min (pattern_nodes (pattern_tree pattern.now)) (2 ^ 64 - 1) }
{
    match pattern {
        Pattern::Sym(_) => 1,
        Pattern::App(_, args) => {
            let mut nodes: u64 = 1;
            for arg in args.as_slice() {
                nodes = nodes.saturating_add(pattern_nodes(arg));
            }
            nodes
        }
        Pattern::Wild(_, _) => 1,
    }
}

// How many nodes of a pattern a token stands for, or the greatest `u64` where there are more.
fn token_nodes(token: &NetToken) -> u64
    ensures { result ≡ min (token_nodes (net_token token.now)) (2 ^ 64 - 1) }
{
    match token {
        NetToken::Leave(_) => 0,
        NetToken::Comm(pattern) => pattern_nodes(pattern),
        _ => 1,
    }
}

// A plus, star, counted or optional wildcard.
fn is_loose_token(token: &NetToken) -> bool
    ensures { result ≡ is_loose_token (net_token token.now) }
{
    match wildcard_of(token) {
        Some((look, _)) => is_loose(look),
        None => false,
    }
}

// The begin of an application of a commutative operation.
fn enters_comm(sig: &Signature, token: &NetToken) -> bool
    ensures { result ≡ enters_comm sig.now (net_token token.now) }
{
    match token {
        NetToken::Enter(op) => sig.is_comm(*op),
        _ => false,
    }
}

// Undoes what the token did to the operations that are open.
fn unnest(token: &NetToken, open: &mut Vec<OpId>) -> Result<(), Memory>
    ensures { OnOk result (reverse (map (λ f. f.0) open.new.items)
        ≡ open_before (reverse (map (λ f. f.0) open.old.items)) (net_token token.now)) }
{
    match token {
        NetToken::Enter(_) => {
            let _ = open.pop();
            Ok(())
        }
        NetToken::Leave(op) => {
            open.push(*op)?;
            Ok(())
        }
        _ => Ok(()),
    }
}

// Opens or ends the application of the token, or answers false where it doesn't name the innermost one.
fn nest(token: &NetToken, open: &mut Vec<OpId>) -> Result<bool, Memory>
    ensures { IfOk result (λ b. open_after (reverse (map (λ f. f.0) open.old.items)) (net_token token.now)
        ≡ where_true b (reverse (map (λ f. f.0) open.new.items))) }
{
    match token {
        NetToken::Enter(op) => {
            open.push(*op)?;
            Ok(true)
        }
        NetToken::Leave(op) => match open.pop() {
            Some(innermost) => Ok(innermost == *op),
            None => Ok(false),
        },
        _ => Ok(true),
    }
}

impl<'a> Above<'a> {
    // No token.
    pub(crate) fn new(alloc: Global) -> Above<'a>
        ensures known { (sig : Sig) → (most : ℕ) → Knows sig most result [] }
        ensures open { opened result ≡ [] }
    {
        Above {
            nodes: 0,
            looks: Vec::new(alloc),
            open: Vec::new(alloc),
            is_first: true,
            uses: Vec::new(alloc),
        }
    }

    // Back to no token.
    pub(crate) fn clear(&mut self)
        ensures known { (sig : Sig) → (most : ℕ) → Knows sig most self.new [] }
        ensures open { opened self.new ≡ [] }
    {
        self.nodes = 0;
        self.looks.clear();
        self.open.clear();
        self.is_first = true;
    }

    // The token may come next: it is no plus, star, counted or optional wildcard at the root, and enters no commutative
    // operation.
    fn may_come(&self, sig: &Signature, token: &NetToken) -> bool
        ensures { result ≡ (not (self.now.is_first && is_loose_token (net_token token.now))
            && not (enters_comm sig.now (net_token token.now))) }
    {
        !(self.is_first && is_loose_token(token)) && !enters_comm(sig, token)
    }

    // Adds the token behind the others, or answers false where the path isn't right with it.
    pub(crate) fn add(
        &mut self,
        sig: &Signature,
        most: u64,
        token: &'a NetToken,
    ) -> Result<bool, Memory>
        requires { most < 2 ^ 64 - 1 }
        ensures right { (ks : Path) → Knows sig.now most self.old ks
            → IfOk result (λ b. is_right_path sig.now most (ks ++ net_token token.now ∷ []) ≡ b) }
        ensures known { (ks : Path) → Knows sig.now most self.old ks
            → IfOk result (λ b. IsTrue b → Knows sig.now most self.new (ks ++ net_token token.now ∷ [])) }
        ensures looks { IfOk result (λ b. IsTrue b
            → take (length self.old.looks.items) (map look_wildcard self.new.looks.items)
            ≡ map look_wildcard self.old.looks.items) }
        ensures open { self.new.open ≡ self.old.open }
    {
        if !self.may_come(sig, token) {
            return Ok(false);
        }
        self.is_first = false;
        self.nodes = self.nodes.saturating_add(token_nodes(token));
        if self.nodes > most {
            return Ok(false);
        }
        add_token_looks(token, &mut self.uses, &mut self.looks)
    }

    // Opens or ends the application of the token, or answers false where it doesn't name the innermost one.
    pub(crate) fn nest(&mut self, token: &NetToken) -> Result<bool, Memory>
        ensures opens { (ks : Path) → open_along [] ks ≡ Some (opened self.old)
            → IfOk result (λ b. open_along [] (ks ++ net_token token.now ∷ []) ≡ where_true b (opened self.new)) }
        ensures known { (sig : Sig) → (most : ℕ) → (ks : Path) → Knows sig most self.old ks
            → Knows sig most self.new ks }
        ensures one { IfOk result (λ b. open_after (opened self.old) (net_token token.now)
            ≡ where_true b (opened self.new)) }
        ensures looks { self.new.looks ≡ self.old.looks }
    {
        nest(token, &mut self.open)
    }

    // What is known before the token, which is to come next.
    pub(crate) fn before(&self, token: &'a NetToken) -> Before<'a>
        ensures { IsBefore (net_token token.now) self.now result }
    {
        Before {
            token,
            nodes: self.nodes,
            looks: self.looks.len(),
            is_first: self.is_first,
        }
    }

    // Takes the last token away, before which this was known.
    pub(crate) fn go_back(&mut self, before: &Before<'a>) -> Result<(), Memory>
        ensures { OnOk result (IsBack before.now self.old self.new) }
    {
        self.nodes = before.nodes;
        self.looks.truncate(before.looks);
        self.is_first = before.is_first;
        unnest(before.token, &mut self.open)
    }

    // Puts together what is known of the tokens of a right path, which stand in the list from the last one on.
    pub(crate) fn gather(
        &mut self,
        sig: &Signature,
        most: u64,
        tokens: &mut Vec<&'a NetToken>,
    ) -> Result<(), Memory>
        requires { most < 2 ^ 64 - 1 }
        ensures { IsGoodPath sig.now most (reverse (tokens_in tokens.old.items))
            → OnOk result (IsGathered sig.now most self.new (reverse (tokens_in tokens.old.items))) }
    {
        self.clear();
        while let Some(token) = tokens.pop() {
            self.add(sig, most, token)?;
            self.nest(token)?;
        }
        Ok(())
    }
}
