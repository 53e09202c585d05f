// Whether a site is up, with its disk.
ghost use Rattle.std.specs.Prelude.{◌≡◌, ◌≤◌, ◌<◌, ℕ, false, List as Items};
ghost use Rattle.e3_disk.specs.Images.{Within};
ghost use Rattle.e3_disk.specs.Leaves.{code_of};
ghost use Rattle.e3_disk.specs.Meters.{armed, cut};
ghost use Rattle.e3_node.specs.NodeStands.{IsIn, logged_in};
ghost use Rattle.e3_node.specs.NodeView.{disk_of, is_up_in};
ghost use Rattle.e3_types.specs.declared.entries.Entry.{Entry};
ghost use Rattle.e3_types.specs.declared.scenarios.Scenario.{Scenario};

use e3_disk::{Disk, Drill};
use e3_log::Log;
use e3_site::Site;
use e3_types::{Leave, List, Record};

/// A site that is down is its disk; one that is up is the site, the log on its disk, and the records that the site rose with,
/// which are kept for the proof alone: they tell in which incarnation the site is. The number at the end tells of the disk: how
/// many records the log on it has; of a site that is down, more records than that are the log with the open tail.
#[derive(Drop)]
pub enum State<D: Disk + Drop> {
    Down(D, u64),
    Up(Site, Log<D>, List<Record>, u64),
}

/// The disk of a site, which is down then.
pub(crate) fn into_disk<D: Disk + Drop>(state: State<D>) -> D
    ensures { result ≡ disk_of state }
{
    match state {
        State::Down(disk, _logged) => disk,
        State::Up(_site, log, _rose, _logged) => log.into_disk(),
    }
}

fn logged_of<D: Disk + Drop>(state: &State<D>) -> u64
    ensures { result ≡ logged_in state.now }
{
    match state {
        State::Down(_, logged) => *logged,
        State::Up(_, _, _, logged) => *logged,
    }
}

/// A site without power: it is down.
pub(crate) fn unpowered<D: Disk + Drill + Drop>(state: State<D>, _unit: ()) -> (State<D>, ())
    ensures down { is_up_in result.0 ≡ false }
    ensures images { Within (D.meaning.image (disk_of state)) (D.meaning.image (disk_of result.0)) }
    ensures logged { logged_in result.0 ≡ logged_in state }
    ensures meters { D.meaning.meters (disk_of result.0) ≡ cut (D.meaning.meters (disk_of state)) }
{
    let logged = logged_of(&state);
    let mut disk = into_disk(state);
    disk.power_cut();
    (State::Down(disk, logged), ())
}

/// Arms the disk, once.
pub(crate) fn arm<D: Disk + Drill + Drop>(state: &mut State<D>, calls: u32, leave: Leave)
    requires { 1 ≤ calls }
    ensures stands { (sc : Scenario) (h : Items Entry) (site : ℕ) → IsIn D.meaning sc h site state.old →
        IsIn D.meaning sc h site state.new }
    ensures meters { D.meaning.meters (disk_of state.new) ≡ armed (D.meaning.meters (disk_of state.old)) calls (code_of leave) }
{
    match state {
        State::Down(disk, _) => disk.arm(calls, leave),
        State::Up(_, log, _, _) => log.arm(calls, leave),
    }
}
