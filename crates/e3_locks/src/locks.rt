// What a table of locks does, whatever it is made of.
ghost use Rattle.std.specs.Prelude.{◌≡◌, ◌≤◌, List, ℕ, true, IfOk, OnOk, OnErr};
ghost use Rattle.std.specs.List.{list_all};
ghost use Rattle.e3_types.specs.Same.{is_older};
ghost use Rattle.e3_locks.specs.Places.{would, released, mode_held};
ghost use Rattle.e3_locks.specs.LockLists.{LockLists, place, grants_after};
ghost use Rattle.e3_locks.specs.Replays.{with_request};
ghost use Rattle.e3_locks.specs.Waiting.{waits_for};

use crate::Granted;
use e3_types::{Grant, List, Mode, Name, NoMemory, Txn};

/// A table of locks by the wait-die rule: of two transactions that want one record the older may wait, and the younger
/// dies. What is said of a table is said of the locks of each name, in the order in which they came.
pub trait Locks {
    ghost lists: { Self → LockLists };

    /// What a request would be answered. It takes no memory.
    fn would(&self, txn: Txn, name: &Name, mode: Mode) -> Grant
        ensures { result ≡ would (record { txn = txn; mode = mode }) (place name.now (lists self.now)) };

    /// A request: the lock is held, or waits behind all others, or the transaction dies for the oldest in its way and
    /// nothing changes. Want of memory is the only error, and changes no lock; with room it does not come. It may take all
    /// the room there is, so one that must not want memory has a `reserve` of its own before it.
    fn request(&mut self, txn: Txn, name: &Name, mode: Mode) -> Result<Grant, NoMemory>
        ensures grant { IfOk result (λ g. g ≡ would (record { txn = txn; mode = mode }) (place name.now (lists self.old))) }
        ensures ok { IfOk result (λ g. (n : List ℕ) → place n (lists self.new)
            ≡ with_request name.now (record { txn = txn; mode = mode }) g (λ m. place m (lists self.old)) n) }
        ensures err { OnErr result ((n : List ℕ) → place n (lists self.new) ≡ place n (lists self.old)) }
        ensures full { OnErr result ((lists self.old).room ≡ 0) };

    /// Makes room for one request more, and changes no lock. Want of memory is the only error.
    fn reserve(&mut self) -> Result<(), NoMemory>
        ensures places { (n : List ℕ) → place n (lists self.new) ≡ place n (lists self.old) }
        ensures kept { (lists self.old).room ≤ (lists self.new).room }
        ensures room { OnOk result (1 ≤ (lists self.new).room) };

    /// What a release of all that the transaction has would grant: name by name in byte order, on each name the longest
    /// front of its queue whose members are each compatible with all other holders. Want of memory is the only error.
    fn grants_after(&self, txn: Txn) -> Result<List<Granted>, NoMemory>
        ensures { IfOk result (λ granted. granted ≡ grants_after txn (lists self.now)) };

    /// The transaction's locks and requests leave, and what that grants is held. It takes no memory, and no room.
    fn release(&mut self, txn: Txn)
        ensures places { (n : List ℕ) → place n (lists self.new) ≡ released txn (place n (lists self.old)) }
        ensures room { (lists self.old).room ≤ (lists self.new).room };

    /// The mode in which a transaction holds a name; none exactly where it holds no lock there. It takes no memory.
    fn holds(&self, txn: Txn, name: &Name) -> Option<Mode>
        ensures { result ≡ mode_held txn (place name.now (lists self.now)).held };

    /// Those that the transaction waits for, each once, the oldest first: at each of its requests that wait the others that
    /// conflict, among the holders and the waiters ahead. All are younger, so no waits lead in a circle. Want of memory is
    /// the only error.
    fn waits_for(&self, txn: Txn) -> Result<List<Txn>, NoMemory>
        ensures ok { IfOk result (λ txns. txns ≡ waits_for txn (lists self.now)) }
        ensures younger { IfOk result (λ txns. list_all (is_older txn) txns ≡ true) };
}
