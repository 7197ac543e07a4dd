//! Telling the chains of books.

ghost use Rattle.std.specs.Prelude.{◌≡◌, ◌++◌, IfOk, OnOk};
ghost use Rattle.std.specs.List.{AllZip, AllByRecursion};
ghost use Rattle.mc_outside.specs.DiskView.{OnlyRead};
ghost use Rattle.audit_cmd.specs.Chains.{HasLine};
ghost use Rattle.said_lines.specs.Lines.{chain_line};
ghost use Rattle.command_status.specs.Statuses.{number_of};
ghost use Rattle.audit_cmd.specs.Reports.{chain_lines, IfTold, TellsLines, TellsChains, ChainCauses, AreCalm, EndsChains};

use crate::report::of_fault;
use crate::{AuditFault, ChainLine, chains};
use command_status::Status;
use mc_base::{List, NoMemory};
use mc_outside::Disk;
use said_lines::{begin_chain, end_chain, lay_bare, ready};
use std::alloc::Global;

/// Tells the chains of the books that the disks have, and how that ended: with a line for each, in their order, where each
/// begins with the entry of a site and no byte of it breaks. All disks come back, in their order, and are only read.
pub fn tell_chains<D: Disk>(alloc: Global, books: Vec<D>) -> (Vec<D>, Status)
    ensures read { AllZip (λ a b. OnlyRead (D.disk a) (D.disk b)) books.items result.0.items }
    ensures moved { AllZip D.disk_moved books.items result.0.items }
    ensures words { number_of result.1 ≡ 2 → ⊥ }
    ensures causes { ChainCauses D.disk books.items result.1 result.0.items }
    ensures told { TellsChains D.disk books.items result.1 }
    ensures ends { IfTold D.disk books.items (λ contents. AllByRecursion HasLine contents
        → AreCalm D.disk books.items result.0.items → EndsChains (number_of result.1)) }
{
    let (books, found) = chains(alloc, books);
    let status = status_of(alloc, found);
    (books, status)
}

/// How a command ends by which this was found of the chains of books.
fn status_of(alloc: Global, found: Result<Vec<ChainLine>, AuditFault>) -> Status
    ensures { TellsLines found result }
{
    match found {
        Ok(lines) => match text_of(alloc, &lines) {
            Ok(text) => Status::Did(List::of(text)),
            Err(NoMemory) => Status::NoMemory,
        },
        Err(fault) => of_fault(fault),
    }
}

/// The lines, as they are said.
fn text_of(alloc: Global, lines: &[ChainLine]) -> Result<Vec<u8>, NoMemory>
    ensures { IfOk result (λ text. text.items ≡ chain_lines lines.now) }
{
    let mut text = Vec::new(alloc);
    for line in lines {
        append_line(alloc, line, &mut text)?;
    }
    Ok(text)
}

/// Appends a line as it is said. After an `Err` there may be a part of it.
fn append_line(alloc: Global, line: &ChainLine, text: &mut Vec<u8>) -> Result<(), NoMemory>
    ensures { OnOk result (text.new.items
        ≡ text.old.items ++ chain_line line.now.name line.now.entries line.now.chain) }
{
    let mut said = ready(begin_chain(alloc, &line.name)?)?;
    lay_bare(&mut said);
    end_chain(&mut said, line.entries, &line.chain);
    text.extend_from_slice(&said)?;
    Ok(())
}
