//! Calls on channels.

ghost use Rattle.zl_calls.specs.calls.Channel.{ChanCreateDoes};

pub mod reading;
pub mod writing;

use crate::calls::make_pair;
use zl_objects::{Objects, Pair};
use zl_rights::{HValue, Status};
use zl_table::Table;

/// Makes a channel, with a handle to each end that has the default rights. The first is to the end
/// with the lower koid.
///
/// `NoResources` where the table has no place for both or fewer than two koids are left,
/// `NoMemory`.
/// Source: the page "zx_channel_create" of the Fuchsia documentation.
pub fn chan_create(table: &mut Table, objects: &mut Objects) -> Result<(HValue, HValue), Status>
    ensures { ChanCreateDoes table.old objects.old result table.new objects.new }
{
    make_pair(table, objects, Pair::Channel)
}
