// All of a run but the writing of its text.
ghost use Rattle.std.specs.Prelude.{Ok, Err, ◌≡◌, ◌≢◌, ◌≤◌, ◌⊎◌, [], IfErr, IfOk, OnOk, length};
ghost use Rattle.e3_fleet.specs.Over.{AreBlank};
ghost use Rattle.e3_play.specs.Delivered.{IsFull};
ghost use Rattle.e3_scenario.specs.Faults.{fault_text};
ghost use Rattle.e3_scenario.specs.Scenarios.{scenario_of};
ghost use Rattle.e3_top.specs.Outcomes.{AreSixteenBlank, IsAsked, IsRunOf, IsTextOf, NothingHappened, told_of};
ghost use Rattle.e3_top.specs.Ends.{IsResponse, IsReady};
ghost use Rattle.e3_top.specs.Words.{IsCheck, IsGen, IsRun, refused_history_full};
ghost use Rattle.e3_top.specs.Commands.{IsCommand, Spell};
ghost use Rattle.e3_top.specs.declared.commands.Command.TheVariants.{Run, Gen, Drill};
ghost use Rattle.e3_world.specs.Given.{IsGiven};
ghost use Rattle.e3_world.specs.Legal.{IsWhole};

use crate::commands::{Command, read_words};
use crate::stage::Stage;
use crate::words::{refused_history_full, refused_words};
use e3_disk::{Disk, Drill};
use e3_fleet::{Played, play_over};
use e3_gen::{generated, generated_scenario};
use e3_laws::rounds::{commits_end, rounds_end};
use e3_laws::serial::one_order;
use e3_outside::{Gate, ReadFault, Source, read_up_to};
use e3_play::RunFault;
use e3_report::{report, summary};
use e3_scenario::{ScenarioFault, fault_line, read_scenario};
use e3_types::{List, NoMemory, Scenario};
use e3_world::History;
use std::alloc::Global;
use std::sync::Wait;
use std::thread::Threads;

/// One byte more than a scenario has at most.
const MOST: u64 = 4_194_305;

/// In how many threads sites work at most: one for each site that there may be.
const MOST_THREADS: usize = 16;

/// How many packets a worker takes in one turn of work at most: their records are one frame.
const MOST_PACKETS: u32 = 8;

/// A text, and the status that the run ends with when it is written.
#[derive(Drop)]
pub struct Response {
    pub status: u8,
    pub text: List<u8>,
}

/// Why a run has no text.
#[derive(Clone, Copy, Debug, PartialEq, Eq)]
pub enum Stop {
    SourceFailed,
    NoMemory,
}

/// What is told of a scenario that was played to its end: the report of a run, or the summary of the drill of a number.
#[derive(Clone, Copy)]
pub enum Telling {
    Report { trace: bool },
    Summary { n: u32 },
}

/// What words, source and disks came to: the text that is due, or why there is none; the history; and the disks.
#[derive(Drop)]
pub struct Prepared<D: Drop> {
    pub due: Result<Response, Stop>,
    pub history: History,
    pub disks: Vec<D>,
}

// A text with its status, or want of memory.
fn made(status: u8, text: Result<List<u8>, NoMemory>) -> Result<Response, Stop>
    ensures due { IfOk result (λ due. (due.status ≡ status) × (text ≡ Ok due.text)) }
    ensures only_memory { IfErr result (λ e. e ≡ Stop.NoMemory) }
{
    match text {
        Ok(text) => Ok(Response { status, text }),
        Err(NoMemory) => Err(Stop::NoMemory),
    }
}

// What is told of a history that went through its scenario.
fn tell(
    alloc: Global,
    telling: Telling,
    scenario: &Scenario,
    history: &History,
) -> Result<List<u8>, NoMemory>
    ensures { IfOk result (λ text. text ≡ told_of telling scenario.now history.now.entries) }
{
    match telling {
        Telling::Report { trace } => report(alloc, scenario, history, trace),
        Telling::Summary { n } => summary(alloc, n, scenario, history),
    }
}

// The text of a scenario that was not played to its end.
fn unfinished(alloc: Global, fault: RunFault) -> Result<Response, Stop>
    ensures due { IfOk result (λ due. (fault ≡ RunFault.HistoryFull) × (due.status ≡ 6) × (due.text ≡ refused_history_full)) }
    ensures only_memory { IfErr result (λ e. e ≡ Stop.NoMemory) }
{
    match fault {
        RunFault::HistoryFull => match refused_history_full(alloc) {
            Ok(text) => Ok(Response { status: 6, text }),
            Err(NoMemory) => Err(Stop::NoMemory),
        },
        RunFault::NoMemory => Err(Stop::NoMemory),
    }
}

// The text of a scenario that was played.
fn text_of(
    alloc: Global,
    telling: Telling,
    scenario: &Scenario,
    ended: Result<(), RunFault>,
    history: &History,
    most: u32,
) -> Result<Response, Stop>
    requires whole { OnOk ended (IsWhole scenario.now history.now.entries) }
    requires full { ended ≡ Err RunFault.HistoryFull → IsFull scenario.now history.now.entries most }
    ensures due { IfOk result (λ due. IsTextOf scenario.now most history.now.entries (told_of telling scenario.now history.now.entries) due.status due.text) }
    ensures only_memory { IfErr result (λ e. e ≡ Stop.NoMemory) }
{
    match ended {
        Ok(()) => made(0, tell(alloc, telling, scenario, history)),
        Err(fault) => unfinished(alloc, fault),
    }
}

// A text that is due without a run, or want of memory; nothing happens.
fn unplayed<D: Drop>(
    alloc: Global,
    status: u8,
    text: Result<List<u8>, NoMemory>,
    disks: Vec<D>,
) -> Prepared<D>
    ensures due { IfOk result.due (λ due. (due.status ≡ status) × (text ≡ Ok due.text)) }
    ensures only_memory { IfErr result.due (λ e. e ≡ Stop.NoMemory) }
    ensures nothing { NothingHappened disks.items result.disks.items result.history.entries }
{
    Prepared {
        due: made(status, text),
        history: History::new(alloc),
        disks,
    }
}

/// Why there is no text, before anything happens.
pub fn unprepared<D: Drop>(alloc: Global, stop: Stop, disks: Vec<D>) -> Prepared<D>
    ensures due { result.due ≡ Err stop }
    ensures nothing { NothingHappened disks.items result.disks.items result.history.entries }
{
    Prepared {
        due: Err(stop),
        history: History::new(alloc),
        disks,
    }
}

// The line of a fault. Where a read wants memory there is none.
fn line_of(alloc: Global, fault: &ScenarioFault) -> Result<List<u8>, NoMemory>
    ensures { IfOk result (λ line. (fault.now ≢ ScenarioFault.NoMemory) × (line ≡ fault_text fault.now)) }
{
    match fault {
        ScenarioFault::NoMemory => Err(NoMemory),
        fault => fault_line(alloc, fault),
    }
}

impl<G, R> Stage<'_, G, R> {
    // The text for words that spell no command.
    fn refuse_words<D: Disk + Drill + Drop>(&self, disks: Vec<D>) -> Prepared<D>
        requires { ¬ IsCommand self.now.words.now }
        ensures due { IsResponse D.meaning disks.items result.disks.items self.now.words.now [] self.now.most result.due result.history.entries }
        ensures nothing { NothingHappened disks.items result.disks.items result.history.entries }
    {
        unplayed(self.alloc, 1, refused_words(self.alloc), disks)
    }

    // The text of a generated scenario.
    fn tell_generated<D: Disk + Drill + Drop>(&self, n: u32, disks: Vec<D>) -> Prepared<D>
        requires spelled { Spell self.now.words.now (Gen n) }
        requires least { 1 ≤ n }
        requires most { n ≤ 1000 }
        ensures due { IsResponse D.meaning disks.items result.disks.items self.now.words.now [] self.now.most result.due result.history.entries }
        ensures nothing { NothingHappened disks.items result.disks.items result.history.entries }
    {
        unplayed(self.alloc, 0, generated(self.alloc, n), disks)
    }

    // The line for bytes that spell no scenario.
    fn refuse_scenario<D: Disk + Drill + Drop>(
        &self,
        trace: bool,
        bytes: &[u8],
        fault: &ScenarioFault,
        disks: Vec<D>,
    ) -> Prepared<D>
        requires run { Spell self.now.words.now (Run trace) }
        requires refused { (fault.now ≡ ScenarioFault.NoMemory) ⊎ (scenario_of bytes.now ≡ Err fault.now) }
        ensures { IsResponse D.meaning disks.items result.disks.items self.now.words.now bytes.now self.now.most result.due result.history.entries }
    {
        unplayed(self.alloc, 2, line_of(self.alloc, fault), disks)
    }
}

impl<G: Gate + Sync, R: Wait + Threads + Sync> Stage<'_, G, R> {
    // Plays a scenario.
    fn play<D: Disk + Drill + Drop + Send>(&self, scenario: &Scenario, disks: Vec<D>) -> Played<D>
        requires given { IsGiven scenario.now }
        requires enough { length scenario.now.weights ≤ length disks.items }
        requires blank { AreBlank D.meaning disks.items }
        ensures whole { OnOk result.ended (IsWhole scenario.now result.history.entries) }
        ensures full { result.ended ≡ Err RunFault.HistoryFull → IsFull scenario.now result.history.entries self.now.most }
        ensures history { IsRunOf D.meaning disks.items result.disks.items scenario.now self.now.most result.history.entries }
    {
        one_order();
        rounds_end();
        commits_end();
        play_over(
            self.rt,
            self.alloc,
            scenario,
            disks,
            self.gate,
            MOST_THREADS,
            MOST_PACKETS,
            self.most,
        )
    }

    // Plays a scenario, and tells of it what the words ask for.
    fn prepare_play<D: Disk + Drill + Drop + Send>(
        &self,
        bytes: &[u8],
        telling: Telling,
        scenario: &Scenario,
        disks: Vec<D>,
    ) -> Prepared<D>
        requires asked { IsAsked self.now.words.now bytes.now telling scenario.now }
        requires given { IsGiven scenario.now }
        requires enough { length scenario.now.weights ≤ length disks.items }
        requires blank { AreBlank D.meaning disks.items }
        ensures { IsResponse D.meaning disks.items result.disks.items self.now.words.now bytes.now self.now.most result.due result.history.entries }
    {
        let Played {
            ended,
            history,
            disks,
        } = self.play(scenario, disks);
        Prepared {
            due: text_of(self.alloc, telling, scenario, ended, &history, self.most),
            history,
            disks,
        }
    }

    // The run over the bytes that were read.
    fn prepare_bytes<D: Disk + Drill + Drop + Send>(
        &self,
        trace: bool,
        bytes: &[u8],
        disks: Vec<D>,
    ) -> Prepared<D>
        requires run { Spell self.now.words.now (Run trace) }
        requires disks { AreSixteenBlank D.meaning disks.items }
        ensures { IsResponse D.meaning disks.items result.disks.items self.now.words.now bytes.now self.now.most result.due result.history.entries }
    {
        match read_scenario(self.alloc, bytes) {
            Err(fault) => self.refuse_scenario(trace, bytes, &fault, disks),
            Ok(scenario) => {
                let telling = Telling::Report { trace };
                self.prepare_play(bytes, telling, &scenario, disks)
            }
        }
    }

    // Reads the source and plays the scenario that it has.
    fn read_and_play<S: Source, D: Disk + Drill + Drop + Send>(
        &self,
        trace: bool,
        source: &mut S,
        disks: Vec<D>,
    ) -> Prepared<D>
        requires run { Spell self.now.words.now (Run trace) }
        requires disks { AreSixteenBlank D.meaning disks.items }
        ensures ready { IsReady D.meaning S.left S.faults disks.items result.disks.items self.now.words.now source.old source.new self.now.most result.due result.history.entries }
    {
        match read_up_to(self.alloc, source, MOST) {
            Err(ReadFault::Failed) => unprepared(self.alloc, Stop::SourceFailed, disks),
            Err(ReadFault::NoMemory) => unprepared(self.alloc, Stop::NoMemory, disks),
            Ok(bytes) => self.prepare_bytes(trace, bytes.as_slice(), disks),
        }
    }

    // Plays the generated scenario of a number.
    fn generate_and_play<D: Disk + Drill + Drop + Send>(&self, n: u32, disks: Vec<D>) -> Prepared<D>
        requires drill { Spell self.now.words.now (Drill n) }
        requires least { 1 ≤ n }
        requires most { n ≤ 1000 }
        requires disks { AreSixteenBlank D.meaning disks.items }
        ensures { IsResponse D.meaning disks.items result.disks.items self.now.words.now [] self.now.most result.due result.history.entries }
    {
        match generated_scenario(self.alloc, n) {
            Err(NoMemory) => unprepared(self.alloc, Stop::NoMemory, disks),
            Ok(scenario) => {
                let telling = Telling::Summary { n };
                self.prepare_play(&[], telling, &scenario, disks)
            }
        }
    }

    /// Does all that the words ask for but writing the text. Only a run and a verdict touch the source.
    pub fn prepare<S: Source, D: Disk + Drill + Drop + Send>(
        &self,
        source: &mut S,
        disks: Vec<D>,
    ) -> Prepared<D>
        requires { AreSixteenBlank D.meaning disks.items }
        ensures ready { IsReady D.meaning S.left S.faults disks.items result.disks.items self.now.words.now source.old source.new self.now.most result.due result.history.entries }
        ensures told { IsGen self.now.words.now → NothingHappened disks.items result.disks.items result.history.entries }
        ensures untouched { IsCheck self.now.words.now → result.disks.items ≡ disks.items }
        ensures unread { ¬ IsRun self.now.words.now → ¬ IsCheck self.now.words.now → source.new ≡ source.old }
    {
        match read_words(self.words) {
            None => self.refuse_words(disks),
            Some(Command::Run { trace }) => self.read_and_play(trace, source, disks),
            Some(Command::Gen { n }) => self.tell_generated(n, disks),
            Some(Command::Drill { n }) => self.generate_and_play(n, disks),
            Some(Command::Check) => self.read_and_judge(source, disks),
        }
    }
}
