// What is shared, while one thread alone goes on: each place and all room that is claimed is used or given back before the call
// ends.
ghost use Rattle.std.specs.Prelude.{◌≡◌, ◌≤◌, ◌↔◌, ℕ, List as Items, nat_le, length, OnOk, OnErr, Err};
ghost use Rattle.e3_node.specs.SharedStands.{HasEntered, IsClaimed, SharedStands};
ghost use Rattle.e3_wire.specs.Marks.{UsesAll, entries_of, last_owner, most_of};
ghost use Rattle.e3_wire.specs.Wires.{MayEnterBehind};
ghost use Rattle.e3_wire.specs.declared.fault.WireFault.TheVariants.{HistoryFull};
ghost use Rattle.e3_wire.specs.declared.marks.Mark.{Mark};

use e3_types::Entry;
use e3_wire::{Shared, WireFault};

/// The history has as many entries as it may have.
pub(crate) fn is_full(shared: &Shared) -> bool
    requires { SharedStands shared.now }
    ensures { result ≡ nat_le (most_of shared.now) (length (entries_of shared.now)) }
{
    shared.is_full()
}

/// Claims a place for an entry of a site, with room for so many packets.
pub(crate) fn claim(shared: &mut Shared, owner: u32, outs: u32) -> Result<(), WireFault>
    requires shared { SharedStands shared.old }
    requires exists { owner ≤ last_owner shared.old }
    ensures claimed { OnOk result (IsClaimed owner outs shared.old shared.new) }
    ensures kept { OnErr result (shared.new ≡ shared.old) }
    ensures full { (result ≡ Err HistoryFull) ↔ (most_of shared.old ≤ length (entries_of shared.old)) }
{
    shared.claim(owner, outs)
}

/// Enters the entry that the last claim was made for. It uses all of it, so that neither a place nor room stays promised.
pub(crate) fn enter(shared: &mut Shared, entry: Entry)
    requires may { MayEnterBehind shared.old entry }
    requires all { UsesAll shared.old entry }
    ensures { (before : Items Mark) (outs : ℕ) → IsClaimed entry.owner outs before shared.old → HasEntered entry before shared.new }
{
    shared.enter(entry);
    shared.tell();
}
