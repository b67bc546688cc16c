//! The token lists of rules.
ghost use Rattle.std.specs.Prelude.{◌≡◌, ◌<◌, ◌^◌, ◌++◌, [], length, map, option_map, slice_get, slice_index_or};
ghost use Rattle.std.specs.Prelude.{IfOk, IsTrue, OnOk, Some};
ghost use Rattle.mp_pattern.specs.NetTokens.{tokens};
ghost use Rattle.mp_pattern.specs.RuleView.{rule_tree};
ghost use Rattle.mp_pattern.specs.Variables.{variables};
ghost use Rattle.mp_pattern.specs.View.{pattern_tree};
ghost use Rattle.mp_many.specs.Prefixes.{token_count, token_lists};
ghost use Rattle.mp_many.specs.TokenView.{read_token};

use crate::names::RuleNames;
use crate::token::Token;
use crate::tokens::Tokens;
use mp_pattern::{Pattern, Rule, variable_number};
use mp_term::{Memory, Names, Signature};
use std::alloc::Global;
use std::marker::Model;

// How many tokens of a rule there is room for at once, the rules taken together.
const ROOM_FOR_TOKENS: usize = 16;

// Where the tokens of a list stand among those of all lists.
#[derive(Clone, Copy)]
pub(crate) struct Span {
    start: usize,
    end: usize,
}

impl Span {
    // From the start to the end, which can be held.
    fn new(start: usize, end: usize) -> Self
        ensures start { result.start ≡ start }
        ensures end { result.end ≡ end }
        ensures held { result.end < 2 ^ 64 }
    {
        Span { start, end }
    }
}

// Lists of tokens, those of one behind those of the other. Contracts see the list of the lists.
#[derive(Drop)]
pub(crate) struct TokenLists<'a> {
    tokens: Tokens<'a>,
    spans: Vec<Span>,
}

impl<'a> Model for TokenLists<'a> {
    ghost use Rattle.std.specs.Prelude.{List};
    ghost use Rattle.std.specs.Coded.{coded_list};
    ghost use Rattle.mp_pattern.specs.NetTokens as plain;
    ghost use Rattle.mp_pattern.specs.NetTokenCode.{coded_net_token};

    ghost Value = { List (List plain.NetToken) };

    ghost coded = { coded_list (coded_list coded_net_token) };

    ghost use Rattle.mp_many.specs.Spans.{lists_view, AreSpans};

    ghost view = { lists_view };

    ghost invariant = { AreSpans };
}

impl<'a> TokenLists<'a> {
    // How many lists there are.
    pub(crate) fn len(&self) -> usize
        ensures { result ≡ length self.now }
    {
        self.spans.len()
    }

    // How many tokens they have together.
    pub(crate) fn count(&self) -> usize
        ensures { result ≡ token_count self.now }
    {
        self.tokens.len()
    }

    // How many tokens the list of the number has.
    #[inline(always)]
    pub(crate) fn length(&self, number: u32) -> usize
        requires { number < length self.now }
        ensures { result ≡ length (slice_index_or self.now number []) }
    {
        let span = self.spans[number as usize];
        span.end - span.start
    }

    // The token of the list of the number at the place, from 0.
    #[inline(always)]
    pub(crate) fn at(&self, number: u32, place: usize) -> Token<'a>
        requires number { number < length self.now }
        requires place { place < length (slice_index_or self.now number []) }
        ensures { slice_get (slice_index_or self.now number []) place ≡ Some (read_token result) }
    {
        let span = self.spans[number as usize];
        self.tokens.at(span.start + place)
    }

    // It is None exactly where the place isn't below the length.
    #[inline(always)]
    pub(crate) fn get(&self, number: u32, place: usize) -> Option<Token<'a>>
        requires { number < length self.now }
        ensures { slice_get (slice_index_or self.now number []) place ≡ option_map read_token result }
    {
        if place < self.length(number) {
            Some(self.at(number, place))
        } else {
            None
        }
    }

    // The lists of the numbers go on with one token at the place, as is told at once.
    #[inline(always)]
    pub(crate) fn go_on_alike(&self, number: u32, other: u32, place: usize) -> bool
        requires number { number < length self.now }
        requires other { other < length self.now }
        ensures { IsTrue result → slice_get (slice_index_or self.now number []) place
            ≡ slice_get (slice_index_or self.now other []) place }
    {
        if place >= self.length(number) || place >= self.length(other) {
            return false;
        }
        let own = self.spans[number as usize].start;
        let others = self.spans[other as usize].start;
        self.tokens.are_same(own + place, others + place)
    }
}

// Adds the tokens of the pattern, as the names number its variables.
fn push_tokens<'a>(
    sig: &Signature,
    names: &'a Names,
    pattern: &'a Pattern,
    out: &mut Tokens<'a>,
) -> Result<(), Memory>
    ensures { OnOk result (out.new ≡ out.old ++ tokens sig.now names.now (pattern_tree pattern.now)) }
{
    match pattern {
        Pattern::Sym(name) => out.push(Token::Sym(name))?,
        Pattern::App(op, args) => {
            if sig.is_comm(*op) {
                out.push(Token::Comm(pattern, names))?;
                return Ok(());
            }
            out.push(Token::Enter(*op))?;
            for arg in args.as_slice() {
                push_tokens(sig, names, arg, out)?;
            }
            out.push(Token::Leave(*op))?;
        }
        Pattern::Wild(shape, variable) => {
            let number = variable_number(names, variable)?;
            out.push(Token::Wild(shape, number))?;
        }
    }
    Ok(())
}

// The tokens of the pattern of each rule, whose variables have these names.
pub(crate) fn rule_tokens<'a>(
    alloc: Global,
    sig: &Signature,
    rules: &'a [Rule],
    names: &'a RuleNames,
) -> Result<TokenLists<'a>, Memory>
    requires { names.now ≡ map (λ r. variables r.pattern) (map rule_tree rules.now) }
    ensures { IfOk result (λ ls. ls ≡ token_lists sig.now (map rule_tree rules.now)) }
{
    let mut tokens = Tokens::with_room(alloc, rules.len().saturating_mul(ROOM_FOR_TOKENS))?;
    let mut spans = Vec::with_capacity(alloc, rules.len())?;
    for (index, rule) in rules.iter().enumerate() {
        let start = tokens.len();
        push_tokens(sig, names.get(index), &rule.pattern, &mut tokens)?;
        spans.push(Span::new(start, tokens.len()))?;
    }
    Ok(TokenLists { tokens, spans })
}
