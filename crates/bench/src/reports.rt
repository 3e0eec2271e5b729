// The report of a check.
ghost use Rattle.std.specs.Prelude.{◌≡◌, ◌+◌, ◌≤◌, ◌∷◌, ◌++◌, length};
ghost use Rattle.sheets.specs.Writing.{Wrote};
ghost use Rattle.sheets.specs.Writers.{Room, Writes};
ghost use Rattle.bench.specs.Records.{eight, word_bytes};
ghost use Rattle.bench.specs.Reports.{code_of_sheet, named_bytes, refused_bytes};

use crate::records::{put_facts, put_number};
use checks::PlanFault;
use facts::FactSet;
use sheets::{Sheet, Writer};

// The shortest buffer for a report.
pub(crate) const ROOM: usize = 160;

// Writes that the plan is accepted, and the facts that it ends in; the answer is the report's length.
pub(crate) fn put_accepted(out: &mut [u8], facts: FactSet) -> usize
    requires { 160 ≤ length out.old }
    ensures { Wrote out.old 0 (0 ∷ word_bytes facts.words) out.new result }
{
    let mut writer = Writer::new(out);
    writer.put(0u8);
    put_facts(&mut writer, facts);
    writer.place()
}

// A match to numbers: they are the codes of the C interface.
fn sheet_code(sheet: Sheet) -> u8
    ensures { result ≡ code_of_sheet sheet }
{
    match sheet {
        Sheet::Book => 0,
        Sheet::Task => 1,
    }
}

// Writes the level, the step and the fact of a need that is missing.
fn put_need(writer: &mut Writer, level: usize, step: usize, fact: usize)
    requires { Room writer.old 24 }
    ensures { Writes writer.old (eight level ++ (eight step ++ eight fact)) writer.new }
{
    put_number(writer, level);
    put_number(writer, step);
    put_number(writer, fact);
}

// Writes what a refusal names.
fn put_named(writer: &mut Writer, fault: PlanFault)
    requires { Room writer.old 24 }
    ensures { Writes writer.old (named_bytes fault) writer.new }
{
    match fault {
        PlanFault::Sheet(fault) => {
            writer.put(sheet_code(fault.sheet));
            put_number(writer, fault.place);
        }
        PlanFault::Mismatch => {}
        PlanFault::NeedMissing { level, step, fact } => put_need(writer, level, step, fact),
        PlanFault::NoOrder { level } => put_number(writer, level),
        PlanFault::GoalMissing { fact } => put_number(writer, fact),
    }
}

// Writes why the sheets or the plan are refused; the answer is the report's length.
pub(crate) fn put_refused(out: &mut [u8], fault: PlanFault) -> usize
    requires { 160 ≤ length out.old }
    ensures { Wrote out.old 0 (refused_bytes fault) out.new result }
{
    let mut writer = Writer::new(out);
    writer.put(fault.number());
    put_named(&mut writer, fault);
    writer.place()
}
