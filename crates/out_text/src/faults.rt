//! What a user is told of a status: a line, or for words that are no command the forms that a command has.

ghost use Rattle.std.specs.Prelude.{◌≡◌, ℕ, ◌≤◌, IfOk, OnOk, OnErr, take, string_bytes};
ghost use Rattle.med_base.specs.Outside.{IfFailed};
ghost use Rattle.med_prelude.specs.Counts.{Rose};
ghost use Rattle.med_prelude.specs.Texts.{told_with};
ghost use Rattle.out_text.specs.FaultText as spec;

use crate::output::write_all;
use med_base::{Part, ShelfFile, Sink, SinkFault, Status};
use med_prelude::Text;
use std::alloc::{AllocError, Global};

const USAGE: &str = "usage: mediator run CATALOGUE QUERY [PLAN] [--threads N] [--report] [--journal]
       mediator check CATALOGUE QUERY [PLAN]
       mediator load NUMBER [--rows N] [--threads N]
";

const OUT_OF_MEMORY: &str = "mediator: out of memory\n";

/// The text of a status, each of its lines with a line feed. Of Done it is empty.
pub fn fault_text(alloc: Global, status: &Status) -> Result<Text, AllocError>
    ensures { IfOk result (λ text. text ≡ spec.fault_text status.now) }
{
    Ok(Text::new(written(alloc, status)?))
}

fn written(alloc: Global, status: &Status) -> Result<String, AllocError>
    ensures { IfOk result (λ text. string_bytes text ≡ spec.fault_text status.now) }
{
    match status {
        Status::Done => Ok(String::new(alloc)),
        Status::NoMemory => String::from_str(alloc, OUT_OF_MEMORY),
        Status::Usage => String::from_str(alloc, USAGE),
        Status::ShelfFault { file } => {
            let file = file_word(*file);
            format!(in alloc; "mediator: cannot read {file}\n")
        }
        Status::CatalogueRefused {
            why,
            relation,
            item,
        } => format!(in alloc;
            "mediator: catalogue refused {why} relation {relation} item {item}\n"
        ),
        Status::QueryRefused { why, at } => {
            format!(in alloc; "mediator: query refused {why} at {at}\n")
        }
        Status::PlanRefused { why, part, item } => {
            let part = part_word(*part);
            format!(in alloc; "mediator: plan refused {why} {part} {item}\n")
        }
        Status::Starved { group } => {
            let (atom, group) = (group.atom, group.group);
            format!(in alloc; "mediator: starved a{atom}.{group}\n")
        }
        Status::RuleError { rule } => {
            format!(in alloc; "mediator: rule {rule} stopped the run\n")
        }
        Status::SpillFault { file } => format!(in alloc; "mediator: spill fault file {file}\n"),
        Status::SpillFull { file, need, limit } => {
            format!(in alloc; "mediator: spill full file {file} need {need} limit {limit}\n")
        }
        Status::Differs { file, kept, found } => {
            format!(in alloc; "mediator: spill file {file} kept {kept} found {found}\n")
        }
        Status::Stalled { rounds } => format!(in alloc; "mediator: stalled {rounds} rounds\n"),
        Status::OutFault => String::from_str(alloc, "mediator: output fault\n"),
        Status::NotBuilt { why } => format!(in alloc; "mediator: not built yet {why}\n"),
    }
}

fn file_word(file: ShelfFile) -> &'static str
    ensures { result.now ≡ spec.file_word file }
{
    match file {
        ShelfFile::Catalogue => "catalogue",
        ShelfFile::Query => "query",
        ShelfFile::Plan => "plan",
    }
}

fn part_word(part: Part) -> &'static str
    ensures { result.now ≡ spec.part_word part }
{
    match part {
        Part::Plan => "plan",
        Part::Fragment => "fragment",
        Part::Join => "join",
        Part::Group => "group",
        Part::Rule => "rule",
        Part::Atom => "atom",
    }
}

/// Writes the text of a status. Where that fails, a prefix of it is written. Of want of memory it is written without
/// taking any.
pub fn write_fault<W: Sink>(alloc: Global, status: &Status, err: &mut W) -> Result<(), SinkFault>
    ensures ok { OnOk result (W.written err.new ≡ told_with (W.written err.old) (spec.fault_text status.now)) }
    ensures err { OnErr result ((n : ℕ) × (W.written err.new ≡ told_with (W.written err.old) (take n (spec.fault_text status.now)))) }
    ensures faults { W.faults err.old ≤ W.faults err.new }
    ensures failed { IfFailed result (Rose (W.faults err.old) (W.faults err.new)) }
{
    if let Status::NoMemory = status {
        return write_all(alloc, err, OUT_OF_MEMORY.as_bytes());
    }
    let text = fault_text(alloc, status)?;
    write_all(alloc, err, text.as_bytes())
}
