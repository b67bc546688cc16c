//! The pairs that rules admit on subjects, one after the other.

ghost use Rattle.std.specs.Prelude.{◌≡◌, [], ◌∷◌, ◌++◌, IfOk, List, false, map, slice_get, true};
ghost use Rattle.std.specs.List.{AllByRecursion};
ghost use Rattle.mp_io.specs.Devices.{Text};
ghost use Rattle.mp_io.specs.Moments.{sunk};
ghost use Rattle.mp_io.specs.Writing.{Puts};
ghost use Rattle.mp_text.specs.File.{file_tree, subject_tree};
ghost use Rattle.mp_text.specs.Sound.{IsSoundFile, IsSoundSubject};
ghost use Rattle.mp_walk.specs.Ranked.{pairs_of, AreOver};
ghost use Rattle.mp_matches.specs.PairsListed.{AreSubjectLines, IsPairsListed, front_lines, more_follow, name_of};
ghost use Rattle.mp_matches.specs.PairsListed.{named, pair_line};
ghost use Rattle.mp_matches.specs.Listed.{lines};
ghost use Rattle.mp_matches.specs.Matches.{IsJoinedBy};
ghost use Rattle.mp_matches.specs.Printed.{Lists};
ghost use Rattle.mp_matches.specs.PrintedPairs.{PrintsUpTo, PutsOrStops, PutsUpTo, PutsWithMemory};

use crate::fault::ListFault;
use crate::matcher::{Line, Matcher};
use crate::stop::Stop;
use crate::told::Told;
use mp_io::{Sink, Writer};
use mp_print::RankTexts;
use mp_table::Table;
use mp_term::{Memory, Name, Signature};
use mp_text::{File, Subject};
use mp_walk::RankedPair;
use std::alloc::Global;

// The name of the rule of that number.
fn name_at<'a>(names: &[&'a Name], number: u32) -> &'a [u8]
    ensures { result.now ≡ name_of (slice_get (named names.now) number) }
{
    match names.get(number as usize) {
        None => &[],
        Some(name) => name.bytes(),
    }
}

// Puts the line of a pair on the subject, where the rules have these names.
fn put_pair<B, L: Line<B>, O: Sink>(
    sig: &Signature,
    base: &B,
    names: &[&Name],
    subject: &Subject,
    pair: &L,
    out: &mut Writer<'_, O>,
)
    requires { L.may_put sig.now base.now pair.now }
    ensures { Puts O.Sink out.old out.new
        (pair_line sig.now (named names.now) (subject_tree subject.now) (L.pair pair.now)) }
{
    out.put_all(&[
        subject.name.bytes(),
        b" ",
        name_at(names, pair.rule()),
        b" ",
    ]);
    pair.put(sig, base, out);
    out.put_byte(b'\n');
}

// Takes one of the lines that may still be printed, and says whether there was one.
fn take_line(left: &mut Option<u32>) -> bool
    ensures taken { result ≡ true → (line : Text) (rest : List Text) →
        front_lines left.old (line ∷ rest) ≡ line ++ front_lines left.new rest }
    ensures none { result ≡ false → (line : Text) (rest : List Text) →
        front_lines left.old (line ∷ rest) ≡ more_follow }
{
    match left {
        None => true,
        Some(0) => false,
        Some(count) => {
            *count -= 1;
            true
        }
    }
}

/// Puts the lines of pairs on a subject, as many as may be, where the rules have these names, and says whether there
/// are any (`front_lines` of `specs/PairsListed.antt`). The values of the pairs stand on the base.
pub fn put_pairs<B, L: Line<B>, O: Sink>(
    sig: &Signature,
    base: &B,
    names: &[&Name],
    subject: &Subject,
    pairs: &[L],
    left: &mut Option<u32>,
    out: &mut Writer<'_, O>,
) -> Told
    requires { AllByRecursion (L.may_put sig.now base.now) pairs.now }
    ensures same { out.new.sink.ghost_name ≡ out.old.sink.ghost_name }
    ensures puts { (rest : List Text) → PutsUpTo O.Sink (front_lines left.old
        (map (pair_line sig.now (named names.now) (subject_tree subject.now)) (map L.pair pairs.now) ++ rest))
        (front_lines left.new rest) out.old out.new result }
{
    let mut any = false;
    for pair in pairs {
        if !take_line(left) {
            out.put(b"more\n");
            return Told::More;
        }
        put_pair(sig, base, names, subject, pair, out);
        any = true;
    }
    Told::All(any)
}

// The table for so many pairs: its small terms are written beforehand where there are more pairs than terms.
fn texts_for<'t>(
    alloc: Global,
    sig: &'t Signature,
    table: &'t Table,
    count: usize,
) -> Result<RankTexts<'t>, Memory>
    ensures sig { IfOk result (λ t. t.sig ≡ sig.now) }
    ensures table { IfOk result (λ t. t.table ≡ table.now) }
{
    if count > table.len() as usize {
        RankTexts::build(alloc, sig, table)
    } else {
        Ok(RankTexts::plain(alloc, sig, table))
    }
}

/// Puts the lines of pairs whose values are by ranks in the table, as `put_pairs` puts them.
///
/// `Memory`: there was no room for texts of the table's terms, and nothing is put.
// Where there are more pairs than terms in the table, the texts of its small terms are written once.
pub fn put_ranked_pairs<O: Sink>(
    alloc: Global,
    sig: &Signature,
    table: &Table,
    names: &[&Name],
    subject: &Subject,
    pairs: &[RankedPair<'_>],
    left: &mut Option<u32>,
    out: &mut Writer<'_, O>,
) -> Result<Told, Memory>
    requires { AreOver table.now pairs.now }
    ensures same { out.new.sink.ghost_name ≡ out.old.sink.ghost_name }
    ensures puts { (rest : List Text) → PutsWithMemory O.Sink (front_lines left.old
        (map (pair_line sig.now (named names.now) (subject_tree subject.now)) (pairs_of pairs.now) ++ rest))
        (front_lines left.new rest) out.old out.new result }
{
    let texts = texts_for(alloc, sig, table, pairs.len())?;
    Ok(put_pairs(sig, &texts, names, subject, pairs, left, out))
}

// Puts the lines of the pairs of subjects, as many as may be, and says whether there are any. It ends behind the
// subject at which a write has failed.
fn put_subjects<M: Matcher, O: Sink>(
    alloc: Global,
    sig: &Signature,
    names: &[&Name],
    subjects: &[Subject],
    matcher: &M,
    left: &mut Option<u32>,
    out: &mut Writer<'_, O>,
) -> Result<bool, Stop>
    requires subjects { AllByRecursion (IsSoundSubject sig.now) (map subject_tree subjects.now) }
    requires over { sig.now ≡ M.signature matcher.now }
    ensures same { out.new.sink.ghost_name ≡ out.old.sink.ghost_name }
    ensures puts { (all : List Text) → IsJoinedBy (AreSubjectLines sig.now (named names.now) (M.finds matcher.now))
        (map subject_tree subjects.now) all →
        PutsOrStops O.Sink (front_lines left.old all) (front_lines left.new []) out.old out.new result }
{
    let mut any = false;
    for subject in subjects {
        match matcher.put(alloc, sig, names, subject, left, out)? {
            Told::All(some) => any |= some,
            Told::More => return Err(Stop::More),
        }
        if out.has_failed() {
            return Err(Stop::CannotWrite);
        }
    }
    Ok(any)
}

// Prints the lines of the pairs of subjects, as many as may be, and says whether there are any.
fn print_subjects<M: Matcher, O: Sink>(
    alloc: Global,
    sig: &Signature,
    names: &[&Name],
    subjects: &[Subject],
    matcher: &M,
    left: &mut Option<u32>,
    out: &mut O,
) -> Result<bool, Stop>
    requires subjects { AllByRecursion (IsSoundSubject sig.now) (map subject_tree subjects.now) }
    requires over { sig.now ≡ M.signature matcher.now }
    ensures { (all : List Text) → IsJoinedBy (AreSubjectLines sig.now (named names.now) (M.finds matcher.now))
        (map subject_tree subjects.now) all →
        PrintsUpTo (front_lines left.old all) (front_lines left.new []) (sunk O.Sink out.old out.new) result }
{
    let mut out = Writer::new(out);
    let told = put_subjects(alloc, sig, names, subjects, matcher, left, &mut out);
    out.finish()?;
    told
}

/// Prints a line for each pair that the matcher finds on a subject of the file, in order, and says whether there are
/// any: `IsPairsListed` of `specs/PairsListed.antt`. The file must be sound (`IsSoundFile` of mp_text's
/// `specs/Sound.antt`), as every file that `read_file` gives, and its signature that of the matcher. The rules have
/// these names.
///
/// Subjects come in file order, and for each of them the pairs in the order in which they are found, as that of
/// `IsAllList` of mp_pattern's `specs/Lists.antt`: the rules by their numbers, and for each rule the substitutions in
/// their own order. At most `limit` lines are printed, where there is a limit; where more pairs follow, a last line is
/// `more`.
///
/// `Memory`: memory ran out. `CannotWrite`: a write failed. A front of the lines is written then. No other fault comes.
// Lines are written in blocks of up to 4,096 bytes, each as soon as it is full, and at the end.
pub fn list_pairs<M: Matcher, O: Sink>(
    alloc: Global,
    file: &File,
    names: &[&Name],
    matcher: &M,
    limit: Option<u32>,
    out: &mut O,
) -> Result<bool, ListFault>
    requires file { IsSoundFile (file_tree file.now) }
    requires over { M.signature matcher.now ≡ (file_tree file.now).sig }
    ensures { (text : Text) → IsPairsListed (file_tree file.now) (named names.now) (M.finds matcher.now) limit text →
        Lists (lines text) (sunk O.Sink out.old out.new) result }
{
    let mut left = limit;
    let subjects = file.subjects.as_slice();
    match print_subjects(alloc, &file.sig, names, subjects, matcher, &mut left, out) {
        Ok(any) => Ok(any),
        Err(Stop::More) => Ok(true),
        Err(Stop::CannotWrite) => Err(ListFault::CannotWrite),
        Err(Stop::Memory) => Err(ListFault::Memory),
    }
}
