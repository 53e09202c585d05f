// The verdict on a printed history, up to the writing of its text.
ghost use Rattle.std.specs.Prelude.{◌≡◌};
ghost use Rattle.e3_top.specs.Ends.{IsResponse, IsReady};
ghost use Rattle.e3_top.specs.Commands.{Spell};
ghost use Rattle.e3_top.specs.declared.commands.Command.TheVariants.{Check};

use crate::preparing::{Prepared, Response, Stop, unprepared};
use crate::stage::Stage;
use e3_disk::{Disk, Drill};
use e3_outside::{ReadFault, Source, read_up_to};
use e3_trace::verdicts::check;
use e3_types::NoMemory;

/// One byte more than a scenario with its trace has at most.
const MOST: u64 = 268_435_457;

impl<G, R> Stage<'_, G, R> {
    // The verdict on the bytes that were read. Nothing is played, and no disk is touched.
    fn judge_bytes<D: Disk + Drill + Drop>(&self, bytes: &[u8], disks: Vec<D>) -> Prepared<D>
        requires { Spell self.now.words.now Check }
        ensures due { IsResponse D.meaning disks.items result.disks.items self.now.words.now bytes.now self.now.most result.due result.history.entries }
        ensures disks { result.disks.items ≡ disks.items }
    {
        match check(self.alloc, bytes) {
            Err(NoMemory) => unprepared(self.alloc, Stop::NoMemory, disks),
            Ok(checked) => Prepared {
                due: Ok(Response {
                    status: checked.status,
                    text: checked.text,
                }),
                history: checked.history,
                disks,
            },
        }
    }

    /// Reads the source, which is to have a scenario and a trace, and gives the verdict on it. No disk is touched.
    pub fn read_and_judge<S: Source, D: Disk + Drill + Drop>(
        &self,
        source: &mut S,
        disks: Vec<D>,
    ) -> Prepared<D>
        requires { Spell self.now.words.now Check }
        ensures ready { IsReady D.meaning S.left S.faults disks.items result.disks.items self.now.words.now source.old source.new self.now.most result.due result.history.entries }
        ensures disks { result.disks.items ≡ disks.items }
    {
        match read_up_to(self.alloc, source, MOST) {
            Err(ReadFault::Failed) => unprepared(self.alloc, Stop::SourceFailed, disks),
            Err(ReadFault::NoMemory) => unprepared(self.alloc, Stop::NoMemory, disks),
            Ok(bytes) => self.judge_bytes(bytes.as_slice(), disks),
        }
    }
}
