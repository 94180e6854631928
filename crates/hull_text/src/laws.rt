ghost use Rattle.std.specs.Prelude.{◌≡◌, ◌<◌, ◌↔◌, ◌^◌, ◌⊎◌, ℕ, List, [], Ok, Some, Result, decimal};
ghost use Rattle.hull_set.specs.declared.call.Call.{Call};
ghost use Rattle.hull_text.specs.declared.version.Version.{Version};
ghost use Rattle.hull_book.specs.Scripts.{ScriptValue};
ghost use Rattle.hull_text.specs.ScriptGrammar.{IsScriptFault, IsScriptText, ReadsScript};
ghost use Rattle.hull_text.specs.declared.fault.TextFault.{TextFault};
ghost use Rattle.hull_text.specs.Fault.{IsServed};
ghost use Rattle.hull_text.specs.Number.{number_of};
ghost use Rattle.hull_set.specs.declared.reply.Reply.{Reply};
ghost use Rattle.hull_text.specs.Call.{call_at};
ghost use Rattle.hull_text.specs.Reply.{reply_at};
ghost use Rattle.hull_book.specs.Journals.{JournalValue};
ghost use Rattle.hull_text.specs.JournalText.{journal_text};
ghost use Rattle.hull_text.specs.JournalReading.{journal_of};
ghost use Rattle.hull_text.specs.JournalGrammar.{IsJournalFault, IsJournalSaid, IsJournalText, ReadsJournal};
ghost use Rattle.hull_text.specs.Spelling.{IsCall, IsReply, call_fields, reply_fields};

/// A field spells a number exactly if it is the number's decimal text.
pub fn numbers_have_one_spelling()
    ensures { (f : List ℕ) (n : ℕ) → n < 2 ^ 128 → (number_of f ≡ Some n) ↔ (f ≡ decimal n) }
{}

/// The fields of a call are read again.
pub fn calls_are_read_again()
    ensures { (v : Version) (c : Call) → IsCall v c → call_at v (call_fields c) ≡ Ok (c, []) }
{}

/// The fields of a reply are read again.
pub fn replies_are_read_again()
    ensures { (v : Version) (r : Reply) → IsReply v r → reply_at v (reply_fields r) ≡ Ok (r, []) }
{}

/// The texts are unambiguous: a script text and a journal text have one reading each; a journal that a version can
/// spell has one text of that version, and this text is read back as the same journal.
pub fn texts_hold()
    ensures scripts { (bytes : List ℕ) (script other : ScriptValue) → IsScriptText bytes script
        → IsScriptText bytes other → script ≡ other }
    ensures journals { (bytes : List ℕ) (journal other : JournalValue) → IsJournalText bytes journal
        → IsJournalText bytes other → journal ≡ other }
    ensures one { (v : Version) (journal : JournalValue) → IsJournalSaid v journal
        → IsJournalText (journal_text v journal) journal }
    ensures again { (v : Version) (journal : JournalValue) → IsJournalSaid v journal
        → journal_of (journal_text v journal) ≡ Ok journal }
    ensures reading { (bytes : List ℕ) (journal : JournalValue)
        → (journal_of bytes ≡ Ok journal) ↔ IsJournalText bytes journal }
{}

/// The first fault of a text is a function of its bytes: a text of the grammar has none, and every other text has
/// exactly one. So two readers for which device and memory did not fail answer the same for the same bytes, in
/// whatever pieces these came.
pub fn faults_hold()
    ensures script_one { (bytes : List ℕ) (f other : TextFault) → IsScriptFault bytes f → IsScriptFault bytes other
        → f ≡ other }
    ensures script_none { (bytes : List ℕ) (script : ScriptValue) (f : TextFault) → IsScriptText bytes script
        → IsScriptFault bytes f → ⊥ }
    ensures script_else { (bytes : List ℕ)
        → ((script : ScriptValue) × IsScriptText bytes script) ⊎ ((f : TextFault) × IsScriptFault bytes f) }
    ensures journal_one { (bytes : List ℕ) (f other : TextFault) → IsJournalFault bytes f → IsJournalFault bytes other
        → f ≡ other }
    ensures journal_none { (bytes : List ℕ) (journal : JournalValue) (f : TextFault) → IsJournalText bytes journal
        → IsJournalFault bytes f → ⊥ }
    ensures journal_else { (bytes : List ℕ) → ((journal : JournalValue) × IsJournalText bytes journal)
        ⊎ ((f : TextFault) × IsJournalFault bytes f) }
    ensures script_answers { (bytes : List ℕ) (answer other : Result ScriptValue TextFault) → ReadsScript bytes answer
        → ReadsScript bytes other → IsServed answer → IsServed other → answer ≡ other }
    ensures journal_answers { (bytes : List ℕ) (answer other : Result JournalValue TextFault) → ReadsJournal bytes answer
        → ReadsJournal bytes other → IsServed answer → IsServed other → answer ≡ other }
{}
