// The packets of a step, the least number first, until none is pending.
ghost use Rattle.std.specs.Prelude.{◌≡◌, ◌≢◌, [], Some, slice_get, OnOk, OnErr, Err};
ghost use Rattle.e3_play.specs.Entering.{AfterPacket};
ghost use Rattle.e3_play.specs.Delivered.{Delivers, IsFullBefore, IsPacketDue};
ghost use Rattle.e3_play.specs.GoingOn.{SitesGoOn};
ghost use Rattle.e3_play.specs.declared.sites.RunFault.TheVariants.{HistoryFull};
ghost use Rattle.e3_world.specs.Packets.{pending, lines, present_items};
ghost use Rattle.e3_world.specs.Items.{items_through, to_line};
ghost use Rattle.e3_world.specs.Progress.{Delivering};

use crate::{RunFault, Sites};
use e3_laws::local::taking_lowers_the_measure;
use e3_types::{Input, Packet};

// The first pending packet: its site takes it, or it is dropped where that site is down.
#[tactic(auto, using(crate::proofs::Packets::packet_due, crate::proofs::DuePackets::packet_full))]
fn deliver<S: Sites>(sites: &mut S, packet: Packet) -> Result<(), RunFault>
    requires standing { S.stands sites.old }
    requires delivering { Delivering (S.scenario sites.old) (S.entries sites.old) }
    requires first { slice_get (pending (S.scenario sites.old) (S.entries sites.old)) 0 ≡ Some packet }
    requires begun { lines (S.entries sites.old) ≢ 0 }
    ensures on { SitesGoOn S.stands S.since S.scenario S.most sites.old sites.new }
    ensures entered { OnOk result (AfterPacket (S.scenario sites.old) (S.entries sites.old) packet (S.entries sites.new)) }
    ensures kept { OnErr result (S.entries sites.new ≡ S.entries sites.old) }
    ensures full { result ≡ Err HistoryFull → IsFullBefore IsPacketDue (S.scenario sites.old) (S.entries sites.new) (S.most sites.old) }
{
    let site = packet.to;
    if sites.is_up(site) {
        sites.input(site, Input::Deliver { packet })
    } else {
        sites.drop_first(&packet)
    }
}

/// Packets are delivered or dropped until none is pending. This ends by the measure that each of them lowers, whatever the
/// bound on entries.
pub fn deliver_all<S: Sites>(sites: &mut S) -> Result<(), RunFault>
    requires standing { S.stands sites.old }
    requires delivering { Delivering (S.scenario sites.old) (S.entries sites.old) }
    requires begun { lines (S.entries sites.old) ≢ 0 }
    ensures on { SitesGoOn S.stands S.since S.scenario S.most sites.old sites.new }
    ensures delivered { Delivers (S.scenario sites.old) (S.entries sites.old) (S.entries sites.new) }
    ensures delivering { Delivering (S.scenario sites.old) (S.entries sites.new) }
    ensures settled { OnOk result (pending (S.scenario sites.old) (S.entries sites.new) ≡ []) }
    ensures full { result ≡ Err HistoryFull → IsFullBefore IsPacketDue (S.scenario sites.old) (S.entries sites.new) (S.most sites.old) }
{
    taking_lowers_the_measure();
    while let Some(packet) = sites.first() {
        deliver(sites, packet)?;
    }
    Ok(())
}
