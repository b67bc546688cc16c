//! Which requests some words make, as the contract of a function that does nothing.

ghost use Rattle.std.specs.Prelude.{◌≡◌, [], ◌∷◌, None, Some, codes};
ghost use Rattle.mp_words.specs.Words.{request_of};
ghost use Rattle.mp_words.specs.declared.request.Action.TheVariants.{Compile, Match, Rewrite, Run, Show};
ghost use Rattle.mp_words.specs.declared.request.Engine.TheVariants.{Many, Net, One};

/// What `request_of` of `specs/Words.antt` says of some words: options stand in any order, with `=` or without; help,
/// an option of another action, a token for an engine other than `one`, a number out of range and two files make no
/// request, nor does standard input as both file and program; behind `--` a file may begin with `-`.
pub fn words_make_requests()
    ensures matched { request_of (codes "--resume" ∷ codes "s/r/1" ∷ codes "match" ∷ codes "t" ∷ codes "--limit=3" ∷ [])
        ≡ Some (record {
          action = Match;
          file = codes "t";
          program = None;
          engine = One;
          limit = Some 3;
          resume = Some (codes "s/r/1");
          max = 1000;
        }) }
    ensures many { request_of (codes "--engine" ∷ codes "many" ∷ codes "match" ∷ codes "t" ∷ [])
        ≡ Some (record {
          action = Match;
          file = codes "t";
          program = None;
          engine = Many;
          limit = None;
          resume = None;
          max = 1000;
        }) }
    ensures netted { request_of (codes "match" ∷ codes "--engine=net" ∷ codes "t" ∷ codes "--limit" ∷ codes "3" ∷ [])
        ≡ Some (record {
          action = Match;
          file = codes "t";
          program = None;
          engine = Net;
          limit = Some 3;
          resume = None;
          max = 1000;
        }) }
    ensures rewritten { request_of (codes "rewrite" ∷ codes "--max" ∷ codes "0" ∷ codes "--" ∷ codes "-t" ∷ [])
        ≡ Some (record {
          action = Rewrite;
          file = codes "-t";
          program = None;
          engine = One;
          limit = None;
          resume = None;
          max = 0;
        }) }
    ensures shown { request_of (codes "show" ∷ codes "-" ∷ [])
        ≡ Some (record {
          action = Show;
          file = codes "-";
          program = None;
          engine = One;
          limit = None;
          resume = None;
          max = 1000;
        }) }
    ensures compiled { request_of (codes "compile" ∷ codes "t" ∷ codes "--from" ∷ codes "-" ∷ [])
        ≡ Some (record {
          action = Compile;
          file = codes "t";
          program = Some (codes "-");
          engine = One;
          limit = None;
          resume = None;
          max = 1000;
        }) }
    ensures run { request_of (codes "run" ∷ codes "t" ∷ codes "p" ∷ [])
        ≡ Some (record {
          action = Run;
          file = codes "t";
          program = Some (codes "p");
          engine = One;
          limit = None;
          resume = None;
          max = 1000;
        }) }
    ensures help { request_of (codes "match" ∷ codes "t" ∷ codes "--help" ∷ []) ≡ None }
    ensures other { request_of (codes "show" ∷ codes "t" ∷ codes "--max=1" ∷ []) ≡ None }
    ensures token { request_of (codes "match" ∷ codes "t" ∷ codes "--engine=net" ∷ codes "--resume=s/r/1" ∷ []) ≡ None }
    ensures many_token { request_of (codes "match" ∷ codes "t" ∷ codes "--engine=many" ∷ codes "--resume=s/r/1" ∷ [])
        ≡ None }
    ensures range { request_of (codes "match" ∷ codes "t" ∷ codes "--limit=0" ∷ []) ≡ None }
    ensures files { request_of (codes "match" ∷ codes "t" ∷ codes "u" ∷ []) ≡ None }
    ensures no_program { request_of (codes "run" ∷ codes "t" ∷ []) ≡ None }
    ensures inputs { request_of (codes "compile" ∷ codes "-" ∷ codes "--from=-" ∷ []) ≡ None }
{}
