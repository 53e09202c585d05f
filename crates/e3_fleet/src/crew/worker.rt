// A worker of a site.
ghost use Rattle.std.specs.Prelude.{◌≡◌, [], None};
ghost use Rattle.e3_fleet.specs.crew.Workers.{HasPass, IsPassFor, KeepsItsOwn, seen_of};
ghost use Rattle.e3_turn.specs.Passes.{seen_by};

use e3_disk::{Disk, Drill};
use e3_node::Node;
use e3_play::RunFault;
use e3_types::{Input, List};
use e3_wire::{Wire, WirePass};
use std::alloc::Global;

/// A site's worker: its node, and while it works its pass, its items of the present step, and how its turn ended. A refusal
/// stays here, so that the passes of all workers are joined again whatever each of them met.
#[derive(Drop)]
pub struct Worker<D: Disk + Drill + Drop> {
    pub node: Node<D>,
    pub(crate) pass: Option<WirePass>,
    pub(crate) items: List<Input>,
    pub(crate) ended: Result<(), RunFault>,
}

impl<D: Disk + Drill + Drop> Worker<D> {
    /// A worker without a pass and without items. It takes no memory.
    pub fn new(alloc: Global, node: Node<D>) -> Worker<D>
        ensures node { result.node ≡ node }
        ensures idle { (result.pass ≡ None) × (result.items ≡ []) }
    {
        Worker {
            node,
            pass: None,
            items: List::new(alloc),
            ended: Ok(()),
        }
    }

    /// The node, as the worker leaves it.
    pub fn into_node(self) -> Node<D>
        ensures { result ≡ self.node }
    {
        self.node
    }
}

// Takes the worker's pass out.
pub(crate) fn take_pass<D: Disk + Drill + Drop>(worker: &mut Worker<D>, wire: &Wire) -> WirePass
    requires { HasPass wire.now worker.old }
    ensures pass { IsPassFor wire.now worker.old.node.site result }
    ensures seen { seen_by result ≡ seen_of worker.old }
    ensures same { KeepsItsOwn worker.old worker.new }
{
    let _ = wire;
    let Some(pass) = worker.pass.take() else {
        unreachable!()
    };
    pass
}
