ghost use Rattle.std.specs.Prelude.{◌↔◌, IsTrue};
ghost use Rattle.hull_book.specs.LongBooks.{IsQuestion};

use hull_set::Call;

/// Whether the call is a question, which changes nothing.
pub fn is_question(call: &Call) -> bool
    ensures { IsTrue result ↔ IsQuestion call.now }
{
    !matches!(*call, Call::Add(_) | Call::Remove(_))
}
