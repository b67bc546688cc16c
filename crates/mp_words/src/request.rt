//! What the command is asked to do, and which words behind its name and options ask for it.

ghost use Rattle.std.specs.Prelude.{◌≡◌, map};
ghost use Rattle.std.specs.Option.{option_map};
ghost use Rattle.mp_words.specs.Requests.{asked, given, line_of, some_text};
ghost use Rattle.mp_words.specs.Words.{actions, are_among, both_are_input, engine_of, engines, files_of, find_action};
ghost use Rattle.mp_words.specs.Words.{find_engine, limit_of, max_of, may_resume, request_by, request_for};

use crate::number::read_number;

/// What the command does with a file of rules and subjects.
#[derive(Clone, Copy)]
pub enum Action {
    /// The matches of its rules are printed.
    Match,
    /// The file is printed.
    Show,
    /// Its subjects are rewritten by its rules, and printed.
    Rewrite,
    /// Its edits are made, and what its subjects become by them is printed.
    Edit,
    /// The match program of its rules is printed, or one that is read.
    Compile,
    /// What a match program accepts on its subjects is printed.
    Run,
}

/// What finds the matches.
#[derive(Clone, Copy)]
pub enum Engine {
    /// A cursor over each rule, which gives its matches in the order of their take tables and can begin behind a token.
    One,
    /// A walk over all rules at once, in which those whose patterns begin alike share their beginning.
    Many,
    /// Nets over all rules, which must be syntactic.
    Net,
    /// The match program of the rules, which is run.
    Program,
}

/// What the command is asked to do.
#[derive(Clone, Copy)]
pub struct Request<'a> {
    /// What is done with the file.
    pub action: Action,
    /// The name of the file, `-` for standard input.
    pub file: &'a str,
    /// The name of a file with a match program, `-` for standard input, which `file` isn't then. `Run` has one, and so
    /// may `Compile`; it is `None` where the action is another.
    pub program: Option<&'a str>,
    /// What finds the matches; `One` where the words don't say it, and where the action is another than `Match`.
    pub engine: Engine,
    /// How many matches are printed at most, 1 to 1,000,000,000. There is no limit where it is `None`, and where the
    /// action is another than `Match`.
    pub limit: Option<u32>,
    /// The resume token behind whose match the printing begins, any text; `None` where it begins at the first match,
    /// and where the action is another than `Match` or the engine another than `One`.
    pub resume: Option<&'a str>,
    /// How many steps rewriting makes of a subject at most, up to 1,000,000; 1,000 where the words don't say it, and
    /// where the action is another than `Rewrite`.
    pub max: u32,
}

// How many matches the words may ask for at most.
const GREATEST_LIMIT: u32 = 1_000_000_000;

// How many steps rewriting makes of a subject at most where the words don't say it.
const USUAL_MAX: u32 = 1000;

// How many steps the words may allow at most.
const GREATEST_MAX: u32 = 1_000_000;

// The value of each option that is given.
#[derive(Clone, Copy)]
pub(crate) struct Options<'a> {
    pub(crate) engine: Option<&'a str>,
    pub(crate) limit: Option<&'a str>,
    pub(crate) resume: Option<&'a str>,
    pub(crate) max: Option<&'a str>,
    pub(crate) from: Option<&'a str>,
}

// The action of that name, if there is one.
fn named_action(name: &str) -> Option<Action>
    ensures { option_map line_of result ≡ find_action name.now actions }
{
    if name == "match" {
        Some(Action::Match)
    } else if name == "show" {
        Some(Action::Show)
    } else if name == "rewrite" {
        Some(Action::Rewrite)
    } else if name == "edit" {
        Some(Action::Edit)
    } else if name == "compile" {
        Some(Action::Compile)
    } else if name == "run" {
        Some(Action::Run)
    } else {
        None
    }
}

// No option is given but those that may stand at the action.
fn may_stand(action: Action, options: &Options) -> bool
    ensures { result ≡ are_among (line_of action).options (given options.now) }
{
    let none_of_match = options.engine.is_none()
        && options.limit.is_none()
        && options.resume.is_none();
    match action {
        Action::Match => options.max.is_none() && options.from.is_none(),
        Action::Rewrite => none_of_match && options.from.is_none(),
        Action::Compile => none_of_match && options.max.is_none(),
        Action::Show | Action::Edit | Action::Run => {
            none_of_match && options.max.is_none() && options.from.is_none()
        }
    }
}

// The engine of that name, if there is one.
fn named_engine(name: &str) -> Option<Engine>
    ensures { result ≡ find_engine name.now engines }
{
    if name == "one" {
        Some(Engine::One)
    } else if name == "many" {
        Some(Engine::Many)
    } else if name == "net" {
        Some(Engine::Net)
    } else if name == "program" {
        Some(Engine::Program)
    } else {
        None
    }
}

// The usual engine where none is given, or the one that is.
fn read_engine(engine: Option<&str>) -> Option<Engine>
    ensures { result ≡ engine_of (some_text engine.entry) }
{
    match engine {
        None => Some(Engine::One),
        Some(name) => named_engine(name),
    }
}

// No token is given, or the engine can begin behind one.
fn may_resume(engine: Engine, resume: Option<&str>) -> bool
    ensures { result ≡ may_resume engine (some_text resume.entry) }
{
    match engine {
        Engine::One => true,
        Engine::Many | Engine::Net | Engine::Program => resume.is_none(),
    }
}

// No number where none is given, or the one that is.
fn read_limit(limit: Option<&str>) -> Option<Option<u32>>
    ensures { result ≡ limit_of (some_text limit.entry) }
{
    match limit {
        None => Some(None),
        Some(text) => {
            let number = read_number(text, 1, GREATEST_LIMIT)?;
            Some(Some(number))
        }
    }
}

// The usual number where none is given, or the one that is.
fn read_max(max: Option<&str>) -> Option<u32>
    ensures { result ≡ max_of (some_text max.entry) }
{
    match max {
        None => Some(USUAL_MAX),
        Some(text) => read_number(text, 0, GREATEST_MAX),
    }
}

// The file that stands behind the action, and the program file: behind it where the action runs one, else the one of
// the option.
fn files_of<'a>(
    action: Action,
    rest: &[&'a str],
    from: Option<&'a str>,
) -> Option<(&'a str, Option<&'a str>)>
    ensures { option_map (λ files. (files.0.now, some_text files.1)) result
        ≡ files_of (line_of action) (map (λ w. w.now) rest.now) (some_text from.entry) }
{
    match action {
        Action::Run => {
            let [file, program] = rest else {
                return None;
            };
            Some((file, Some(program)))
        }
        _ => {
            let [file] = rest else {
                return None;
            };
            Some((file, from))
        }
    }
}

// Both files are standard input.
fn both_are_input(file: &str, program: Option<&str>) -> bool
    ensures { result ≡ both_are_input file.now (some_text program.entry) }
{
    match program {
        None => false,
        Some(program) => file == "-" && program == "-",
    }
}

// The request for an action, by what stands behind it and by the options.
fn request_for<'a>(action: Action, rest: &[&'a str], options: &Options<'a>) -> Option<Request<'a>>
    ensures { option_map asked result ≡ request_for (line_of action) (map (λ w. w.now) rest.now) (given options.now) }
{
    let (file, program) = files_of(action, rest, options.from)?;
    if both_are_input(file, program) || !may_stand(action, options) {
        return None;
    }
    let engine = read_engine(options.engine)?;
    if !may_resume(engine, options.resume) {
        return None;
    }
    let limit = read_limit(options.limit)?;
    let max = read_max(options.max)?;
    Some(Request {
        action,
        file,
        program,
        engine,
        limit,
        resume: options.resume,
        max,
    })
}

// The request by the action's name, what stands behind it, and the options.
pub(crate) fn request_by<'a>(
    name: Option<&str>,
    rest: Option<&[&'a str]>,
    options: &Options<'a>,
) -> Option<Request<'a>>
    ensures { option_map asked result
        ≡ request_by (some_text name.entry) (option_map (λ r. map (λ w. w.now) r.now) rest.entry) (given options.now) }
{
    let action = named_action(name?)?;
    request_for(action, rest?, options)
}
