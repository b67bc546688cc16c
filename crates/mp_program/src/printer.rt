//! Prints programs.

ghost use Rattle.std.specs.Prelude.{◌≡◌, ◌++◌, [], suc, not, length, map, flat_map, slice_get, codes, decimal};
ghost use Rattle.std.specs.Option.{option_map_or};
ghost use Rattle.mp_io.specs.Moments.{sunk};
ghost use Rattle.mp_io.specs.Printing.{Prints};
ghost use Rattle.mp_io.specs.Writing.{Puts};
ghost use Rattle.mp_pattern.specs.CondView.{cond_tree};
ghost use Rattle.mp_pattern.specs.NetTokenView.{net_token};
ghost use Rattle.mp_term.specs.Signature.{Sig};
ghost use Rattle.mp_walk.specs.InstrView.{plain_instr};
ghost use Rattle.mp_print.specs.Printing.{text_if};
ghost use Rattle.mp_program.specs.ProgramView.{rule_view, program_view};
ghost use Rattle.mp_program.specs.RightForm.{IsShort};
ghost use Rattle.mp_program.specs.FormText.{lines_text, variable_text, target_text, token_text, action_text};
ghost use Rattle.mp_program.specs.FormText.{instr_line};
ghost use Rattle.mp_program.specs.FormText.{instr_lines, code_lines, test_line, rule_line, rule_test_text};
ghost use Rattle.mp_program.specs.FormText.{numbered_test};
ghost use Rattle.mp_program.specs.FormText.{line_of_rule, first_target, program_text};

use crate::program::{Program, ProgramRule};
use mp_io::{Failed, Sink, Writer, put_number};
use mp_pattern::{Cond, NetToken};
use mp_print::{kind_name, op_name, put_cond, put_pattern, put_signature, put_term};
use mp_term::{Names, Signature};
use mp_walk::Instr;

/// Appends the text of a program to the sink, in format 2: `program_text` of `specs/FormText.antt`, with the
/// declarations of the signature. The number of each instruction has 32 bits, as in every program that is read. It
/// takes no memory.
///
/// An operation and a kind that the signature doesn't hold have no text.
///
/// `Failed`: the sink's count of faults rose, and a front of the text was appended.
pub fn write_program<K: Sink>(
    sig: &Signature,
    program: &Program,
    sink: &mut K,
) -> Result<(), Failed>
    requires { IsShort (suc (length program.now.code)) }
    ensures { Prints (sunk K.Sink sink.old sink.new) (program_text sig.now (program_view program.now)) result }
{
    let mut out = Writer::new(sink);
    put_program(sig, program, &mut out);
    out.finish()
}

// Puts the text of a program, as `write_program` writes it.
fn put_program<K: Sink>(sig: &Signature, program: &Program, out: &mut Writer<'_, K>)
    requires { IsShort (suc (length program.now.code)) }
    ensures { Puts K.Sink out.old out.new (program_text sig.now (program_view program.now)) }
{
    out.put(b"matchpy program 2\n");
    put_signature(sig, out);
    put_tests(sig, program.tests.as_slice(), out);
    put_rules(program.rules.as_slice(), out);
    put_code(sig, program.code.as_slice(), out);
}

// Puts the test lines.
fn put_tests<K: Sink>(sig: &Signature, tests: &[Cond], out: &mut Writer<'_, K>)
    ensures { Puts K.Sink out.old out.new
        (flat_map (λ t. test_line sig.now t ++ codes "\n") (map cond_tree tests.now)) }
{
    for test in tests {
        put_test(sig, test, out);
    }
}

// Puts a test line, with its end.
fn put_test<K: Sink>(sig: &Signature, test: &Cond, out: &mut Writer<'_, K>)
    ensures { Puts K.Sink out.old out.new (test_line sig.now (cond_tree test.now) ++ codes "\n") }
{
    out.put(b"test ");
    put_cond(sig, test, out);
    out.put(b";\n");
}

// Puts the rule lines.
fn put_rules<K: Sink>(rules: &[ProgramRule], out: &mut Writer<'_, K>)
    ensures { (sig : Sig) → Puts K.Sink out.old out.new
        (flat_map (λ r. rule_line sig (line_of_rule r) ++ codes "\n") (map rule_view rules.now)) }
{
    for rule in rules {
        put_rule(rule, out);
    }
}

// Puts a rule line, with its end.
fn put_rule<K: Sink>(rule: &ProgramRule, out: &mut Writer<'_, K>)
    ensures { (sig : Sig) → Puts K.Sink out.old out.new
        (rule_line sig (line_of_rule (rule_view rule.now)) ++ codes "\n") }
{
    out.put(b"rule ");
    out.put(rule.name.bytes());
    put_names(&rule.vars, out);
    put_rule_test(rule.test, out);
    out.put(b";\n");
}

// Puts names, a blank before each.
fn put_names<K: Sink>(names: &Names, out: &mut Writer<'_, K>)
    ensures { Puts K.Sink out.old out.new (flat_map (λ x. codes " " ++ x) names.now) }
{
    for index in 0..names.len() {
        put_name_of(names, index, out);
    }
}

// Puts a blank and the name at an index, and nothing where none is there.
fn put_name_of<K: Sink>(names: &Names, index: usize, out: &mut Writer<'_, K>)
    ensures { Puts K.Sink out.old out.new
        (option_map_or (λ x. codes " " ++ x) (slice_get names.now index) []) }
{
    if let Some(name) = names.get(index) {
        out.put_all(&[b" ".as_slice(), name.bytes()]);
    }
}

// Puts the number of a rule's test, where it has one.
fn put_rule_test<K: Sink>(test: Option<u32>, out: &mut Writer<'_, K>)
    ensures { (sig : Sig) → Puts K.Sink out.old out.new (rule_test_text sig (numbered_test test)) }
{
    if let Some(number) = test {
        out.put(b" if [");
        put_number(number, out);
        out.put(b"]");
    }
}

// The number of the first instruction, where there is one.
fn first_target(code: &[Instr]) -> Option<u32>
    ensures { result ≡ first_target (map plain_instr code.now) }
{
    if code.is_empty() { None } else { Some(1) }
}

// Puts the lines from `code` on.
fn put_code<K: Sink>(sig: &Signature, code: &[Instr], out: &mut Writer<'_, K>)
    requires { IsShort (suc (length code.now)) }
    ensures { Puts K.Sink out.old out.new (codes "code\n0 begin down "
        ++ (target_text (first_target (map plain_instr code.now)) ++ (codes "\n"
        ++ lines_text (code_lines sig.now 1 (map plain_instr code.now))))) }
{
    out.put(b"code\n0 begin down ");
    put_target(first_target(code), out);
    out.put(b"\n");
    put_instrs(sig, code, out);
    put_number(code.len() as u32 + 1, out);
    out.put(b" stop\n");
}

// Puts the lines of the instructions, which are numbered from 1.
fn put_instrs<K: Sink>(sig: &Signature, code: &[Instr], out: &mut Writer<'_, K>)
    requires { IsShort (suc (length code.now)) }
    ensures { Puts K.Sink out.old out.new (lines_text (instr_lines sig.now 1 (map plain_instr code.now))) }
{
    for (index, instr) in code.iter().enumerate() {
        put_instr(sig, index as u32 + 1, instr, out);
    }
}

// Puts the line of the instruction of a number, with its end.
fn put_instr<K: Sink>(sig: &Signature, number: u32, instr: &Instr, out: &mut Writer<'_, K>)
    ensures { Puts K.Sink out.old out.new (instr_line sig.now number (plain_instr instr.now) ++ codes "\n") }
{
    put_number(number, out);
    out.put(b" ");
    put_token(sig, &instr.token, out);
    out.put(b" ");
    put_action(instr.down, instr.accepts.as_slice(), out);
    out.put(b" over ");
    put_target(instr.over, out);
    out.put(b"\n");
}

// Puts where an instruction leads down, or which rules it accepts.
fn put_action<K: Sink>(down: Option<u32>, accepts: &[u32], out: &mut Writer<'_, K>)
    ensures { Puts K.Sink out.old out.new (action_text down accepts.now) }
{
    match down {
        Some(number) => {
            out.put(b"down ");
            put_number(number, out);
        }
        None => {
            out.put(b"accept");
            put_numbers(accepts, out);
        }
    }
}

// Puts numbers, a blank before each.
fn put_numbers<K: Sink>(numbers: &[u32], out: &mut Writer<'_, K>)
    ensures { Puts K.Sink out.old out.new (flat_map (λ n. codes " " ++ decimal n) numbers.now) }
{
    for number in numbers {
        out.put(b" ");
        put_number(*number, out);
    }
}

// Puts a token.
fn put_token<K: Sink>(sig: &Signature, token: &NetToken, out: &mut Writer<'_, K>)
    ensures { Puts K.Sink out.old out.new (token_text sig.now (net_token token.now)) }
{
    match token {
        NetToken::Sym(name) => out.put_all(&[b"sym ".as_slice(), name.bytes()]),
        NetToken::Enter(op) => out.put_all(&[b"enter ".as_slice(), op_name(sig, *op)]),
        NetToken::Leave(op) => out.put_all(&[b"leave ".as_slice(), op_name(sig, *op)]),
        NetToken::Dot(variable) => put_wildcard(b"dot ", *variable, out),
        NetToken::Kind(kind, variable) => {
            out.put_all(&[b"kind ".as_slice(), kind_name(sig, *kind)]);
            put_wildcard(b" ", *variable, out);
        }
        NetToken::Plus(variable) => put_wildcard(b"plus ", *variable, out),
        NetToken::Star(variable) => put_wildcard(b"star ", *variable, out),
        NetToken::Opt(variable, default) => {
            put_wildcard(b"opt ", *variable, out);
            out.put(b" ");
            put_term(sig, default, out);
        }
        NetToken::Counted(count, fixed, variable) => {
            put_wildcard(b"counted ", *variable, out);
            put_count(*count, *fixed, out);
        }
        NetToken::Comm(pattern) => {
            out.put(b"comm ");
            put_pattern(sig, pattern, out);
        }
    }
}

// Puts the count of a counted wildcard.
fn put_count<K: Sink>(count: u32, fixed: bool, out: &mut Writer<'_, K>)
    ensures { Puts K.Sink out.old out.new (codes " " ++ (decimal count ++ text_if (not fixed) (codes "+"))) }
{
    out.put(b" ");
    put_number(count, out);
    out.put(if fixed { b"" } else { b"+" });
}

// Puts a word and the variable of a wildcard.
fn put_wildcard<K: Sink>(word: &[u8], variable: Option<u32>, out: &mut Writer<'_, K>)
    ensures { Puts K.Sink out.old out.new (word.now ++ variable_text variable) }
{
    out.put(word);
    match variable {
        Some(number) => {
            out.put(b"v");
            put_number(number, out);
        }
        None => out.put(b"_"),
    }
}

// Puts the number of an instruction.
fn put_target<K: Sink>(target: Option<u32>, out: &mut Writer<'_, K>)
    ensures { Puts K.Sink out.old out.new (target_text target) }
{
    match target {
        Some(number) => put_number(number, out),
        None => out.put(b"-"),
    }
}
