ghost use Rattle.std.specs.Prelude.{◌≡◌, ◌≤◌, length, Option};
ghost use Rattle.hull_text.specs.Words.{answer_words, call_word_of, call_word_text, reply_word_of, reply_word_text, word_in};

/// The word of a call, the same in scripts and journals of each version.
#[derive(Clone, Copy, Debug, PartialEq, Eq)]
pub(crate) enum CallWord {
    // written by tools/table.py: each CallWord
    Add,
    Remove,
    Extreme,
    Place,
    Tangents,
    Vertices,
    Area,
    Count,
    // end of what tools/table.py writes
}

/// The word of a reply. The rules of a journal's version determine which of them it can spell.
#[derive(Clone, Copy, Debug, PartialEq, Eq)]
pub(crate) enum ReplyWord {
    // written by tools/table.py: each ReplyWord
    Added,
    Already,
    Again,
    TooMany,
    NoMemory,
    Removed,
    Left,
    Absent,
    Count,
    Point,
    Empty,
    Inside,
    On,
    Outside,
    Tangents,
    NoTangent,
    List,
    Area,
    // end of what tools/table.py writes
}

impl CallWord {
    /// Returns the spelling of the word.
    pub fn text(self) -> &'static [u8]
        ensures { result.now ≡ call_word_text self }
    {
        match self {
            // written by tools/table.py: text of CallWord
            CallWord::Add => b"add",
            CallWord::Remove => b"remove",
            CallWord::Extreme => b"extreme",
            CallWord::Place => b"place",
            CallWord::Tangents => b"tangents",
            CallWord::Vertices => b"vertices",
            CallWord::Area => b"area",
            CallWord::Count => b"count",
            // end of what tools/table.py writes
        }
    }

    /// Returns the word that a field spells.
    #[tactic(auto, unfolding(crate::specs::Words::call_word_of))]
    pub fn of(field: &[u8]) -> Option<CallWord>
        ensures { result ≡ call_word_of field.now }
    {
        // written by tools/table.py: call of a field
        if field == CallWord::Add.text() {
            Some(CallWord::Add)
        } else if field == CallWord::Remove.text() {
            Some(CallWord::Remove)
        } else if field == CallWord::Extreme.text() {
            Some(CallWord::Extreme)
        } else if field == CallWord::Place.text() {
            Some(CallWord::Place)
        } else if field == CallWord::Tangents.text() {
            Some(CallWord::Tangents)
        } else if field == CallWord::Vertices.text() {
            Some(CallWord::Vertices)
        } else if field == CallWord::Area.text() {
            Some(CallWord::Area)
        } else if field == CallWord::Count.text() {
            Some(CallWord::Count)
        } else {
            None
        }
        // end of what tools/table.py writes
    }
}

/// Returns the reply word that answers a question.
fn answer_word(field: &[u8]) -> Option<ReplyWord>
    ensures { result ≡ word_in reply_word_text answer_words field.now }
{
    // written by tools/table.py: answer of a field
    if field == ReplyWord::Count.text() {
        Some(ReplyWord::Count)
    } else if field == ReplyWord::Point.text() {
        Some(ReplyWord::Point)
    } else if field == ReplyWord::Empty.text() {
        Some(ReplyWord::Empty)
    } else if field == ReplyWord::Inside.text() {
        Some(ReplyWord::Inside)
    } else if field == ReplyWord::On.text() {
        Some(ReplyWord::On)
    } else if field == ReplyWord::Outside.text() {
        Some(ReplyWord::Outside)
    } else if field == ReplyWord::Tangents.text() {
        Some(ReplyWord::Tangents)
    } else if field == ReplyWord::NoTangent.text() {
        Some(ReplyWord::NoTangent)
    } else if field == ReplyWord::List.text() {
        Some(ReplyWord::List)
    } else if field == ReplyWord::Area.text() {
        Some(ReplyWord::Area)
    } else {
        None
    }
    // end of what tools/table.py writes
}

impl ReplyWord {
    /// Returns the spelling of the word.
    pub fn text(self) -> &'static [u8]
        ensures { result.now ≡ reply_word_text self }
    {
        match self {
            // written by tools/table.py: text of ReplyWord
            ReplyWord::Added => b"added",
            ReplyWord::Already => b"already",
            ReplyWord::Again => b"again",
            ReplyWord::TooMany => b"toomany",
            ReplyWord::NoMemory => b"nomemory",
            ReplyWord::Removed => b"removed",
            ReplyWord::Left => b"left",
            ReplyWord::Absent => b"absent",
            ReplyWord::Count => b"count",
            ReplyWord::Point => b"point",
            ReplyWord::Empty => b"empty",
            ReplyWord::Inside => b"inside",
            ReplyWord::On => b"on",
            ReplyWord::Outside => b"outside",
            ReplyWord::Tangents => b"tangents",
            ReplyWord::NoTangent => b"notangent",
            ReplyWord::List => b"list",
            ReplyWord::Area => b"area",
            // end of what tools/table.py writes
        }
    }

    /// Returns the word that a field spells.
    #[tactic(auto, unfolding(crate::specs::Words::reply_word_of))]
    pub fn of(field: &[u8]) -> Option<ReplyWord>
        ensures { result ≡ reply_word_of field.now }
    {
        // written by tools/table.py: reply of a field
        if field == ReplyWord::Added.text() {
            Some(ReplyWord::Added)
        } else if field == ReplyWord::Already.text() {
            Some(ReplyWord::Already)
        } else if field == ReplyWord::Again.text() {
            Some(ReplyWord::Again)
        } else if field == ReplyWord::TooMany.text() {
            Some(ReplyWord::TooMany)
        } else if field == ReplyWord::NoMemory.text() {
            Some(ReplyWord::NoMemory)
        } else if field == ReplyWord::Removed.text() {
            Some(ReplyWord::Removed)
        } else if field == ReplyWord::Left.text() {
            Some(ReplyWord::Left)
        } else if field == ReplyWord::Absent.text() {
            Some(ReplyWord::Absent)
        } else {
            answer_word(field)
        }
        // end of what tools/table.py writes
    }
}
