ghost use Rattle.std.specs.Prelude.{◌≡◌};
ghost use Rattle.hull_reply.specs.Encoded.{code_number};

/// The result of a call of a library for C. The headers name each by its number, which is the discriminant here.
#[derive(Clone, Copy, PartialEq, Eq, Debug)]
pub enum Code {
    // written by tools/table.py: codes
    /// A coordinate is larger than 2^40 in size, or a double is not finite.
    OutOfRange = 1,
    /// Both components of the direction are 0.
    ZeroDirection = 2,
    /// The point is new, and is there now.
    Added = 3,
    /// The point was there, and now has multiplicity `number`, at least 2.
    Again = 4,
    /// The point is new and there are as many as the limit, or its multiplicity is 65,535.
    TooMany = 5,
    /// Malloc refused; the call may be made again.
    NoMemory = 6,
    /// The point had multiplicity 1, and is gone.
    Removed = 7,
    /// The point is still there, with multiplicity `number`.
    Left = 8,
    /// The point is not there.
    Absent = 9,
    /// The point (`x`, `y`).
    Point = 10,
    /// There is no point.
    Empty = 11,
    /// The hull covers the point, which is not on its boundary.
    Inside = 12,
    /// The point is on the boundary: a vertex, on an edge, or on a hull that is a point or a segment.
    On = 13,
    /// The hull does not cover the point.
    Outside = 14,
    /// The left point (`x`, `y`) and the right one (`other_x`, `other_y`).
    Tangents = 15,
    /// There is no point, or the hull covers the one asked about.
    NoTangent = 16,
    /// `number`; an area is 2^64 times `high` more.
    Number = 17,
    /// There are `number` vertices, which are at the front of the array if one was passed.
    Vertices = 18,
    /// The array is too small for the `number` vertices or bytes that are to be written.
    TooSmall = 19,
    /// There is no point any more.
    Cleared = 20,
    /// A point of an array in order does not follow the one before it, by x and then y.
    OutOfOrder = 21,
    /// No kind that can be asked here has this number.
    UnknownKind = 22,
    /// They have a point in common.
    Intersecting = 23,
    /// A direction (`other_x`, `other_y`), at most 2^41 in size, separates them: of the one, no vertex is farther in it
    /// than (`x`, `y`), and each vertex of the other is.
    Disjoint = 24,
    /// The polygon covers the point, which is its own nearest.
    Covered = 25,
    /// The vertex (`x`, `y`) is the nearest.
    Vertex = 26,
    /// The foot on the edge from (`x`, `y`) to the next vertex, (`other_x`, `other_y`), is the nearest.
    Edge = 27,
    /// The box from its least point (`x`, `y`) to its greatest, (`other_x`, `other_y`).
    Box = 28,
    /// The other polygon covers a vertex of this one.
    Within = 29,
    /// A segment between two vertices of this polygon crosses one between two of the other.
    Crossing = 30,
    /// The two vertices (`x`, `y`) and (`other_x`, `other_y`).
    Points = 31,
    /// The shared hull is open now.
    Open = 32,
    /// A limit, a capacity or a number of seats is 0 or too great (a limit in hull_init, too).
    OutOfLimits = 33,
    /// The shared hull was opened before.
    WasOpened = 34,
    /// The seat is in the storage now.
    Acquired = 35,
    /// No seat of this number is free: it is acquired, or there never was one.
    NoSeat = 36,
    /// The storage has a seat already.
    StorageInUse = 37,
    /// The shared hull is not open.
    NotOpen = 38,
    /// The seat is released, and the storage has none.
    Released = 39,
    /// The storage has no seat.
    Vacant = 40,
    /// The seat has a number, whose call is not finished.
    Waiting = 41,
    /// The seat's slot of the shared hull is not free.
    SlotInUse = 42,
    /// The seat has a number now.
    Taken = 43,
    /// Another number is served: look again.
    NotYet = 44,
    /// The seat has no number to look for.
    NoNumber = 45,
    /// The journal has as many lines as it may have until it is drained: the call was not made, and the seat has no
    /// number any more.
    Full = 46,
    /// A seat is acquired: the shared hull stays open.
    SeatsOut = 47,
    /// The shared hull is closed, and has its journal.
    Closed = 48,
    /// The shared hull is not closed.
    NotClosed = 49,
    /// The text was written to the front of the array: `number` bytes.
    Text = 50,
    /// The shared hull is ended.
    Ended = 51,
    /// No seat is acquired, but a call on the shared hull or a seat is under way: it stays open.
    InUse = 52,
    /// The segment has space for lines now.
    Reserved = 53,
    /// The segment has space or lines already.
    SegmentInUse = 54,
    /// The segment has too little space for the lines that the journal may have: no look was made.
    NoSpace = 55,
    /// The segment has no lines.
    NoLines = 56,
    /// The text is not a journal: line `number` of it, from 1, has the first fault, `high`: 1 its form, 2 a number, 3 a
    /// coordinate, 4 a seat, 5 a word, 6 the text ends before its end line, 7 no header.
    NoJournal = 57,
    /// The journal is of version 1 or 2, which does not count points, so it can't be continued.
    OldRules = 58,
    /// The journal is not a legal history: line `number` of its text, from 1, is the first that is wrong.
    Illegal = 59,
    /// The journal has lines by `number` seats (0 to `number` - 1), more than were asked for.
    TooFewSeats = 60,
    /// The shared hull takes so many readers.
    ReadersSet = 67,
    /// The reader has this snapshot, which was the newest.
    SnapshotTaken = 68,
    /// The reader has the snapshot that it had before: others delayed a newer one.
    Old = 69,
    // end of what tools/table.py writes
}

impl Code {
    /// Returns the code's number in the headers.
    pub fn number(self) -> u32
        ensures { result ≡ code_number self }
    {
        self as u32
    }
}
