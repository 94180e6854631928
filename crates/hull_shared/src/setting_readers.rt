//! The publisher of a shared hull, and the registry of its readers.
ghost use Rattle.std.specs.Prelude.{◌≤◌, IfOk};
ghost use Rattle.hull_shared.specs.Gates.{IsGateFor};
ghost use Rattle.hull_snapshots.specs.declared.TheConstants.{READER_LIMIT};

use crate::gate::Gate;
use hull_set::NoMemory;
use hull_snapshots::ChangePublisher;
use std::alloc::Global;

/// Makes a publisher for so many readers, and their registry; neither, if there are none.
pub(crate) fn change_publisher_for(
    alloc: Global,
    readers: u8,
    first: u64,
) -> Result<(Option<ChangePublisher>, Option<Gate>), NoMemory>
    requires { readers ≤ READER_LIMIT }
    ensures { IfOk result (λ r. IsGateFor readers first r.0 r.1) }
{
    if readers == 0 {
        return Ok((None, None));
    }
    let (change_publisher, reader_registry) = ChangePublisher::open(alloc, readers)?;
    let gate = Gate {
        reader_registry,
        readers_set: readers,
        out: 0,
        first,
    };
    Ok((Some(change_publisher), Some(gate)))
}
