//! Cuts the bytes of a rule file into tokens, from left to right, one at a time.

ghost use Rattle.std.specs.Prelude.{◌≡◌, ◌≤◌, ◌<◌, ◌+◌, ◌-◌, ◌^◌, length, false, MatchOption};
ghost use Rattle.std.specs.List.{prefix_len};
ghost use Rattle.mp_parser.specs.Tokens.{is_word_byte, is_sign_byte, is_blank, after_byte, first_place, IsFirstPlace};
ghost use Rattle.mp_parser.specs.Tokens.{Punctuation, Bad};
ghost use Rattle.mp_parser.specs.Lexing.{is_underscore, least, run_at, settled, word_or_wildcard_at, punct_at};
ghost use Rattle.mp_parser.specs.Lexing.{after_blanks, token_of, token_at};
ghost use Rattle.mp_parser.specs.Fronts.{front_at, NoPunct};
ghost use Rattle.mp_parser.specs.View.{placed};

use crate::limits::MAX_WORD_BYTES;
use crate::place::Place;
use crate::token::{Kind, Punct, Token};

/// The place of the first token of a text, by `IsFirstPlace` of `specs/Tokens.antt`.
///
/// The text has fewer than 4,294,967,295 bytes, so that each line and column is a `u32`. Where it has no token, it is
/// the place of its first byte that begins none, behind blanks and comments, or of the end.
pub fn first_token_place(bytes: &[u8]) -> Place
    requires { length bytes.now < 2 ^ 32 - 1 }
    ensures { IsFirstPlace bytes.now result }
{
    let mut lexer = Lexer::new(bytes);
    lexer.pass_blanks();
    lexer.place
}

/// The bytes that are left, and the place where they begin.
#[derive(Clone, Copy, Debug)]
pub struct Lexer<'a> {
    rest: &'a [u8],
    place: Place,
    ghost lines: { place.line + length rest.now < 2 ^ 32 },
    ghost columns: { place.column + length rest.now < 2 ^ 32 },
}

impl<'a> Lexer<'a> {
    /// A lexer at the first byte of a file. There are fewer than 4,294,967,295 bytes, so that
    /// each line and column is a `u32`.
    pub fn new(bytes: &'a [u8]) -> Lexer<'a>
        requires { length bytes.now < 2 ^ 32 - 1 }
        ensures rest { result.rest.now ≡ bytes.now }
        ensures place { result.place ≡ first_place }
    {
        Lexer {
            rest: bytes,
            place: Place { line: 1, column: 1 },
        }
    }

    /// Puts the next token in place of the one that is held, behind blanks and comments. At the end it is `End`, again
    /// and again.
    ///
    /// What it is, where it stands and what is left is `token_at` of `specs/Lexing.antt`.
    pub fn next_token(&mut self, token: &mut Token<'a>)
        ensures { token_at self.old.rest.now self.old.place ≡ (placed token.new, (self.new.rest.now, self.new.place)) }
    {
        if self.pass_space() {
            self.next_behind_blanks(token);
            return;
        }
        token.place = self.place;
        self.front(&mut token.kind);
    }

    // The same, where more than a single space may stand before the token. That is rare.
    #[cold]
    #[inline(never)]
    fn next_behind_blanks(&mut self, token: &mut Token<'a>)
        ensures { token_at self.old.rest.now self.old.place ≡ (placed token.new, (self.new.rest.now, self.new.place)) }
    {
        self.pass_blanks();
        token.place = self.place;
        self.front(&mut token.kind);
    }

    // Passes a single space at the front, and says whether blanks or comments may stand there still: no blank is above
    // `#`, and most bytes are.
    fn pass_space(&mut self) -> bool
        ensures passed { after_blanks false self.new.rest.now self.new.place
            ≡ after_blanks false self.old.rest.now self.old.place }
        ensures none { result ≡ false
            → after_blanks false self.new.rest.now self.new.place ≡ (self.new.rest.now, self.new.place) }
    {
        if let [b' ', rest @ ..] = self.rest {
            self.rest = rest;
            self.place.column += 1;
        }
        match self.rest {
            [first, ..] => *first <= b'#',
            [] => true,
        }
    }

    // Passes the longest token at the front and puts it in place of one.
    #[inline(always)]
    fn front(&mut self, kind: &mut Kind<'a>)
        ensures { front_at self.old.rest.now self.old.place
            ≡ (token_of kind.new, (self.new.rest.now, self.new.place)) }
    {
        let [first, rest @ ..] = self.rest else {
            *kind = Kind::End;
            return;
        };
        if let Some(punct) = punct(*first) {
            self.rest = rest;
            self.place.column += 1;
            *kind = Kind::Punct(punct);
            return;
        }
        let (word, behind) = self.rest.split_at(word_len(self.rest));
        if !word.is_empty() && word.len() <= MAX_WORD_BYTES && mark_count(behind) == 0 {
            self.rest = behind;
            self.place.column += word.len() as u32;
            *kind = Kind::Word(word);
            return;
        }
        self.run(kind);
    }

    // The same, where no punctuation character stands at the front. Mostly it is a wildcard or a sign.
    #[inline(never)]
    fn run(&mut self, kind: &mut Kind<'a>)
        requires { NoPunct self.old.rest.now }
        ensures { front_at self.old.rest.now self.old.place
            ≡ (token_of kind.new, (self.new.rest.now, self.new.place)) }
    {
        let (run, len) = longest(self.rest);
        *kind = settled(run);
        let (_, rest) = self.rest.split_at(len);
        self.rest = rest;
        self.place.column += len as u32;
    }

    // Passes the blanks and comments at the front, byte by byte.
    #[cold]
    #[inline(never)]
    fn pass_blanks(&mut self)
        ensures { (self.new.rest.now, self.new.place) ≡ after_blanks false self.old.rest.now self.old.place }
    {
        let mut in_comment = false;
        while let [first, rest @ ..] = self.rest {
            if in_comment {
                in_comment = *first != b'\n';
            } else if *first == b'#' {
                in_comment = true;
            } else if !is_blank(*first) {
                return;
            }
            self.place = after_byte(self.place, *first);
            self.rest = rest;
        }
    }
}

// The place behind a byte.
fn after_byte(place: Place, byte: u8) -> Place
    requires line_fits { place.line + 1 < 2 ^ 32 }
    requires column_fits { place.column + 1 < 2 ^ 32 }
    ensures { result ≡ after_byte place byte }
{
    if byte == b'\n' {
        Place {
            line: place.line + 1,
            column: 1,
        }
    } else {
        Place {
            line: place.line,
            column: place.column + 1,
        }
    }
}

// The longest run at the front that is one token, with words of any length and the arrow as a
// sign, and how many bytes it has, where no punctuation character stands there.
fn longest<'a>(bytes: &'a [u8]) -> (Kind<'a>, usize)
    requires { NoPunct bytes.now }
    ensures value { (token_of result.0, result.1) ≡ run_at bytes.now }
    ensures within { result.1 ≤ length bytes.now }
{
    match bytes {
        [] => (Kind::End, 0),
        [first, ..] => {
            if is_word_byte(*first) || *first == b'_' {
                word_or_wildcard(bytes)
            } else if is_sign_byte(*first) {
                let (sign, _) = bytes.split_at(sign_len(bytes));
                (Kind::Sign(sign), sign.len())
            } else {
                (Kind::Bad, 1)
            }
        }
    }
}

// The token of a run: `->` is the arrow, and a word of more than 64 bytes is too long.
fn settled<'a>(run: Kind<'a>) -> Kind<'a>
    ensures { token_of result ≡ settled (token_of run.entry) }
{
    match run {
        Kind::Word(word) if word.len() > MAX_WORD_BYTES => Kind::Long,
        Kind::Wildcard { name, kind, .. }
            if name.len() > MAX_WORD_BYTES || kind.len() > MAX_WORD_BYTES => { Kind::Long }
        Kind::Sign(sign) if sign == b"->".as_slice() => Kind::Arrow,
        _ => run,
    }
}

// The word or wildcard at the front, and how many bytes it has.
fn word_or_wildcard<'a>(bytes: &'a [u8]) -> (Kind<'a>, usize)
    ensures value { (token_of result.0, result.1) ≡ word_or_wildcard_at bytes.now }
    ensures within { result.1 ≤ length bytes.now }
{
    let (name, rest) = bytes.split_at(word_len(bytes));
    let marks = mark_count(rest);
    if marks == 0 {
        return (Kind::Word(name), name.len());
    }
    let (_, after) = rest.split_at(marks);
    let kind_len = if marks == 1 { word_len(after) } else { 0 };
    let (kind, _) = after.split_at(kind_len);
    let wildcard = Kind::Wildcard { name, marks, kind };
    (wildcard, name.len() + marks + kind_len)
}

// How many letters and digits stand at the front.
fn word_len(bytes: &[u8]) -> usize
    ensures value { result ≡ prefix_len is_word_byte bytes.now }
    ensures within { result ≤ length bytes.now }
{
    bytes.iter().take_while(|byte| is_word_byte(**byte)).count()
}

// How many sign bytes stand at the front.
fn sign_len(bytes: &[u8]) -> usize
    ensures value { result ≡ prefix_len is_sign_byte bytes.now }
    ensures within { result ≤ length bytes.now }
{
    bytes.iter().take_while(|byte| is_sign_byte(**byte)).count()
}

// How many underscores stand at the front, but at most three.
fn mark_count(bytes: &[u8]) -> usize
    ensures value { result ≡ least 3 (prefix_len is_underscore bytes.now) }
    ensures within { result ≤ length bytes.now }
{
    match bytes {
        [b'_', behind @ ..] => match behind {
            [b'_', b'_', ..] => 3,
            [b'_', ..] => 2,
            _ => 1,
        },
        _ => 0,
    }
}

// The punctuation character that a byte is.
#[inline(always)]
fn punct(byte: u8) -> Option<Punct>
    ensures { MatchOption result (punct_at byte ≡ Bad) (λ p. punct_at byte ≡ Punctuation p) }
{
    match byte {
        b'(' => Some(Punct::Open),
        b')' => Some(Punct::Close),
        b'[' => Some(Punct::OpenSquare),
        b']' => Some(Punct::CloseSquare),
        b'{' => Some(Punct::OpenBrace),
        b'}' => Some(Punct::CloseBrace),
        b',' => Some(Punct::Comma),
        b';' => Some(Punct::Semicolon),
        b':' => Some(Punct::Colon),
        b'.' => Some(Punct::Dot),
        b'$' => Some(Punct::Dollar),
        _ => None,
    }
}

// Whether a byte is a letter or a digit.
fn is_word_byte(byte: u8) -> bool
    ensures { result ≡ is_word_byte byte }
{
    byte.is_ascii_alphanumeric()
}

// Whether a byte is one of `+ - * / = < > & | ^ ~ ! % @ ?`.
fn is_sign_byte(byte: u8) -> bool
    ensures { result ≡ is_sign_byte byte }
{
    matches!(
        byte,
        b'+' | b'-'
            | b'*'
            | b'/'
            | b'='
            | b'<'
            | b'>'
            | b'&'
            | b'|'
            | b'^'
            | b'~'
            | b'!'
            | b'%'
            | b'@'
            | b'?'
    )
}

// Whether a byte is a space, a tab, a carriage return or a line feed.
fn is_blank(byte: u8) -> bool
    ensures { result ≡ is_blank byte }
{
    matches!(byte, b' ' | b'\t' | b'\r' | b'\n')
}
