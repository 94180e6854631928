ghost use Rattle.std.specs.Prelude.{◌≡◌, ◌≢◌, ◌++◌, ◌∷◌, [], ◌+◌, ◌≤◌, ◌<◌, IfErr, IfOk, MatchResult, OnErr, OnOk, Ok};
ghost use Rattle.std.specs.Prelude.{Err, length};
ghost use Rattle.hull_text.specs.Fault.{IsMemoryFault, IsOutside, IsReadFault, fault_at};
ghost use Rattle.hull_text.specs.ScriptText.{kept, numbered};
ghost use Rattle.hull_text.specs.ScriptLine.{script_line_of};
ghost use Rattle.hull_text.specs.ScriptValue.{SaysWorker, script_of, workers_in};
ghost use Rattle.hull_text.specs.Reading.{FailsIn, HasNoNewline, ReadsOn};
ghost use Rattle.hull_text.specs.ScriptReading.{AnswersScript, IsDraft};

use super::assemble::script_from;
use super::item::Item;
use super::reading::LineReader;
use super::script_line::script_line;
use crate::fault::{FaultKind, TextFault};
use hull_book::{Script, TEXT_LINE_LIMIT};
use std::alloc::Global;

/// The items of a script that were read so far.
#[derive(Drop)]
pub(crate) struct ScriptDraft {
    alloc: Global,
    items: Vec<Item>,
    number: u32,
    ghost is_draft: { IsDraft items.items number },
}

/// Reads line `number` of a script.
#[tactic(auto, unfolding(crate::specs::ScriptText::numbered))]
fn item_at(number: u32, line: &[u8]) -> Result<Option<Item>, TextFault>
    ensures value { result ≡ numbered number (script_line_of line.now) }
    ensures worker { IfOk result SaysWorker }
    ensures inside { IfErr result (λ f. ¬ IsOutside f) }
    ensures place { IfErr result (λ f. f.line ≡ number) }
    ensures low { IfOk result (λ _. number ≤ TEXT_LINE_LIMIT) }
{
    if number > TEXT_LINE_LIMIT {
        return Err(TextFault::new(FaultKind::Form, number));
    }
    match script_line(line) {
        Ok(item) => Ok(item),
        Err(kind) => Err(TextFault::new(kind, number)),
    }
}

/// Keeps the item of a line. If memory is refused for it, the fault has the line that is passed.
fn keep_item(items: &mut Vec<Item>, item: Option<Item>, line: u32) -> Result<(), TextFault>
    ensures ok { OnOk result (items.new.items ≡ items.old.items ++ kept item []) }
    ensures err { IfErr result (λ f. f ≡ fault_at line FaultKind.NoMemory) }
    ensures kept { OnErr result (items.new.items ≡ items.old.items) }
{
    let Some(item) = item else {
        return Ok(());
    };
    match items.push(item) {
        Ok(()) => Ok(()),
        Err(_) => Err(TextFault::new(FaultKind::NoMemory, line)),
    }
}

/// Reads line `number`, and keeps its item.
fn add_line(items: &mut Vec<Item>, number: u32, line: &[u8]) -> Result<(), TextFault>
    requires draft { IsDraft items.old.items number }
    requires whole { HasNoNewline line.now }
    ensures draft { OnOk result (IsDraft items.new.items (number + 1)) }
    ensures on { OnOk result
        (ReadsOn (AnswersScript items.old.items number) (AnswersScript items.new.items (number + 1))
        (line.now ++ 10 ∷ []) []) }
    ensures fault { IfErr result (FailsIn (AnswersScript items.old.items number) (line.now ++ 10 ∷ [])) }
    ensures kept { OnErr result (items.new.items ≡ items.old.items) }
    ensures inside { IfErr result (λ f. ¬ IsReadFault f) }
    ensures place { IfErr result (λ f. f.line ≡ number) }
{
    match item_at(number, line) {
        Ok(item) => keep_item(items, item, number),
        Err(fault) => Err(fault),
    }
}

/// Returns the script of the items, at the end of a text; the number is that of the line after its last.
fn finished(alloc: Global, items: &[Item], number: u32) -> Result<Script, TextFault>
    requires workers { workers_in items.now ≤ 64 }
    requires few { length items.now ≤ TEXT_LINE_LIMIT }
    ensures made { MatchResult result (λ script. script ≡ script_of items.now) (λ f. IsMemoryFault f) }
    ensures place { IfErr result (λ f. f.line ≡ number) }
{
    match script_from(alloc, items) {
        Ok(script) => Ok(script),
        Err(_) => Err(TextFault::new(FaultKind::NoMemory, number)),
    }
}

impl ScriptDraft {
    /// Makes a draft of which nothing was read.
    pub fn new(alloc: Global) -> ScriptDraft
        ensures items { result.items.items ≡ [] }
        ensures number { result.number ≡ 1 }
    {
        ScriptDraft {
            alloc,
            items: Vec::new(alloc),
            number: 1,
        }
    }
}

impl LineReader for ScriptDraft {
    type Value = Script;

    ghost answers = { λ s text answer. AnswersScript s.items.items s.number text answer };

    ghost line = { λ s. s.number };

    fn line(&self) -> u32 {
        self.number
    }

    fn take(&mut self, text: &[u8]) -> Result<(), TextFault> {
        add_line(&mut self.items, self.number, text)?;
        self.number += 1;
        Ok(())
    }

    fn finish(self, text: &[u8]) -> Result<Script, TextFault> {
        let ScriptDraft {
            alloc,
            items,
            number,
        } = self;
        if text.is_empty() {
            return finished(alloc, &items, number);
        }
        let mut items = items;
        let item = item_at(number, text)?;
        keep_item(&mut items, item, number + 1)?;
        finished(alloc, &items, number + 1)
    }
}
