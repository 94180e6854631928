//! Recording served calls with the publisher of a shared hull.
ghost use Rattle.std.specs.Prelude.{◌≡◌, [], IfOk};
ghost use Rattle.hull_book.specs.Books.{IsLawful};
ghost use Rattle.hull_book.specs.History.{held_after};
ghost use Rattle.hull_book.specs.LongBooks.{whole};
ghost use Rattle.hull_book.specs.Marks.{as_segment};
ghost use Rattle.bucket_tree.specs.Sets.{bucket_set};
ghost use Rattle.hull_shared.specs.Publications.{ArePublished, IsOneCallAfter, published_slots};

use bucket_tree::BucketTree;
use hull_book::{Journal, LongBook};
use hull_set::{Call, NoMemory, Reply};
use hull_snapshots::{ChangePublisher, change_of};

/// Records with the publisher, if there is one, the call whose line is the last of the book's. The publisher
/// publishes how the call changed the vertices.
pub(crate) fn announce(
    change_publisher: &mut Option<ChangePublisher>,
    book: &LongBook<BucketTree>,
    call: &Call,
    reply: &Reply,
)
    requires lawful { IsLawful bucket_set (whole book.now) }
    requires state_after { IsOneCallAfter change_publisher.old book.now.lines call.now reply.now }
    ensures encoded { ArePublished change_publisher.new book.now.lines }
    ensures snapshot_slots { published_slots change_publisher.new ≡ published_slots change_publisher.old }
{
    if let Some(change_publisher) = change_publisher {
        let _is_shown = change_publisher.announce(change_of(call, reply), book.set());
    }
}

/// Makes a publisher that has recorded the lines of a journal, and published the vertices that they left, which are
/// those of the set.
pub(crate) fn caught_up(
    change_publisher: Option<ChangePublisher>,
    journal: &Journal,
    set: &BucketTree,
) -> Result<Option<ChangePublisher>, NoMemory>
    requires encoded { ArePublished change_publisher [] }
    requires held { bucket_set.held set.now ≡ held_after journal.now.lines }
    ensures encoded { IfOk result (λ t. ArePublished t (as_segment journal.now.lines)) }
    ensures snapshot_slots { IfOk result (λ t. published_slots t ≡ published_slots change_publisher) }
{
    let Some(mut change_publisher) = change_publisher else {
        return Ok(None);
    };
    for line in journal.lines() {
        change_publisher.record(change_of(&line.call, &line.reply));
    }
    if !change_publisher.publish(set) {
        return Err(NoMemory);
    }
    Ok(Some(change_publisher))
}
