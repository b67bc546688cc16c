//! Words of the command line, and the requests that they make.

use crate::values::check;
use mp_words::{Action, Engine, Request, read_words};
use std::alloc::Global;
use std::process::Abort;

// What is asked for: the action, the file, the program file, the engine, the limit, the resume token and the number of
// steps.
type Asked = (
    Action,
    &'static str,
    Option<&'static str>,
    Engine,
    Option<u32>,
    Option<&'static str>,
    u32,
);

// In both tables a blank stands between two words, of which the first is the program's name; a word may be empty.

// Words that make a request, and what they ask for.
const REQUESTS: &[(&str, Asked)] = &[
    (
        "matchpy match t",
        (Action::Match, "t", None, Engine::One, None, None, 1000),
    ),
    (
        "matchpy show -",
        (Action::Show, "-", None, Engine::One, None, None, 1000),
    ),
    (
        "matchpy show ",
        (Action::Show, "", None, Engine::One, None, None, 1000),
    ),
    (
        "matchpy rewrite t",
        (Action::Rewrite, "t", None, Engine::One, None, None, 1000),
    ),
    (
        "matchpy edit t",
        (Action::Edit, "t", None, Engine::One, None, None, 1000),
    ),
    (
        "matchpy --resume s/r/1 match t --limit=3",
        (
            Action::Match,
            "t",
            None,
            Engine::One,
            Some(3),
            Some("s/r/1"),
            1000,
        ),
    ),
    (
        "matchpy match --limit 0000000003 --engine=one t --resume=",
        (
            Action::Match,
            "t",
            None,
            Engine::One,
            Some(3),
            Some(""),
            1000,
        ),
    ),
    (
        "matchpy match t --limit 1000000000 --resume -",
        (
            Action::Match,
            "t",
            None,
            Engine::One,
            Some(1_000_000_000),
            Some("-"),
            1000,
        ),
    ),
    (
        "matchpy match t --engine many",
        (Action::Match, "t", None, Engine::Many, None, None, 1000),
    ),
    (
        "matchpy --engine=many match t --limit=1",
        (Action::Match, "t", None, Engine::Many, Some(1), None, 1000),
    ),
    (
        "matchpy match t --engine net",
        (Action::Match, "t", None, Engine::Net, None, None, 1000),
    ),
    (
        "matchpy --limit=2 match --engine=net -- -t",
        (Action::Match, "-t", None, Engine::Net, Some(2), None, 1000),
    ),
    (
        "matchpy rewrite t --max 1000000",
        (
            Action::Rewrite,
            "t",
            None,
            Engine::One,
            None,
            None,
            1_000_000,
        ),
    ),
    (
        "matchpy --max=0 rewrite -- -t",
        (Action::Rewrite, "-t", None, Engine::One, None, None, 0),
    ),
    (
        "matchpy -- edit --max",
        (Action::Edit, "--max", None, Engine::One, None, None, 1000),
    ),
    (
        "matchpy show -- --",
        (Action::Show, "--", None, Engine::One, None, None, 1000),
    ),
    (
        "matchpy match --engine=program t --limit 2",
        (
            Action::Match,
            "t",
            None,
            Engine::Program,
            Some(2),
            None,
            1000,
        ),
    ),
    (
        "matchpy compile t",
        (Action::Compile, "t", None, Engine::One, None, None, 1000),
    ),
    (
        "matchpy compile --from p t",
        (
            Action::Compile,
            "t",
            Some("p"),
            Engine::One,
            None,
            None,
            1000,
        ),
    ),
    (
        "matchpy compile - --from=p",
        (
            Action::Compile,
            "-",
            Some("p"),
            Engine::One,
            None,
            None,
            1000,
        ),
    ),
    (
        "matchpy run t p",
        (Action::Run, "t", Some("p"), Engine::One, None, None, 1000),
    ),
    (
        "matchpy run -- -t -",
        (Action::Run, "-t", Some("-"), Engine::One, None, None, 1000),
    ),
];

// Words that make no request, a line each.
const OTHERS: &str = "\
matchpy\n\
matchpy match\n\
matchpy --limit 3\n\
matchpy help t\n\
matchpy Match t\n\
matchpy match t u\n\
matchpy show -- t -u\n\
matchpy match t --help\n\
matchpy -h\n\
matchpy match t -x\n\
matchpy match t --engin=one\n\
matchpy match t --engine=all\n\
matchpy match t --engine=many --resume=s/r/1\n\
matchpy match t --resume  --engine many\n\
matchpy rewrite t --engine=many\n\
matchpy match t --engine=programs\n\
matchpy match t --engine=program --resume=s/r/1\n\
matchpy match t --engine=Net\n\
matchpy match t --engine=one --engine=net\n\
matchpy match t --engine=net --resume=s/r/1\n\
matchpy match t --resume  --engine net\n\
matchpy edit t --engine=net\n\
matchpy match t --limit\n\
matchpy match t --limit -- 3\n\
matchpy match t --limit=1 --limit=1\n\
matchpy match t --limit=0\n\
matchpy match t --limit=1000000001\n\
matchpy match t --limit=00000000003\n\
matchpy match t --limit=9999999999\n\
matchpy match t --limit=\n\
matchpy match t --limit=+3\n\
matchpy match t --limit=3x\n\
matchpy match t --limit -3\n\
matchpy match -t\n\
matchpy match t --max=1\n\
matchpy rewrite t --max\n\
matchpy rewrite t --max=+1\n\
matchpy rewrite t --max=1000001\n\
matchpy rewrite t --max=00000000001\n\
matchpy rewrite t --resume=s/r/1\n\
matchpy rewrite t --engine=one\n\
matchpy show\n\
matchpy show t --resume=x\n\
matchpy edit t --limit=1\n\
matchpy run t\n\
matchpy run t p q\n\
matchpy run - -\n\
matchpy run t p --limit=1\n\
matchpy run t p --from=q\n\
matchpy compile t p\n\
matchpy compile - --from -\n\
matchpy compile t --from=p --from=q\n\
matchpy compile t --engine=program\n\
matchpy match t --from=p";

// Whether this is what is asked for; `None` where there is no request.
fn is_asked(request: Option<Request>, asked: Option<&Asked>) -> bool {
    match (request, asked) {
        (Some(request), Some(asked)) => {
            request.action as u8 == asked.0 as u8
                && request.file == asked.1
                && request.program == asked.2
                && request.engine as u8 == asked.3 as u8
                && request.limit == asked.4
                && request.resume == asked.5
                && request.max == asked.6
        }
        (None, None) => true,
        _ => false,
    }
}

// Whether this is what the words ask for.
fn are_asking(rt: &impl Abort, alloc: Global, words: &str, asked: Option<&Asked>) -> bool {
    let mut all = Vec::new(alloc);
    for word in words.split(' ') {
        all.push(word).expect(rt, "memory");
    }
    is_asked(
        read_words(alloc, all.as_slice()).expect(rt, "memory"),
        asked,
    )
}

#[test]
fn words_make_their_requests(rt: HostRuntime) {
    for (words, asked) in REQUESTS {
        check(&rt, are_asking(&rt, rt.alloc(), words, Some(asked)), words);
    }
}

#[test]
fn other_words_make_no_request(rt: HostRuntime) {
    for words in OTHERS.split('\n') {
        check(&rt, are_asking(&rt, rt.alloc(), words, None), words);
    }
}
