//! The front of a run: it gives statements to a core, lets their queries come to their
//! end, and writes the replies.
ghost use Rattle.std.specs.Prelude.{◌≡◌, ◌≢◌, ◌⊎◌, ◌<◌, ◌≤◌, [], ◌∷◌, All, IsTrue, None, Some, Ok, false, IfOk, OnErr, OnOk};
ghost use Rattle.std.specs.Io.KnownBytes.{Appends};
ghost use Rattle.star_io.specs.Transfer.{AppendsFront};
ghost use Rattle.reply_text.specs.Text.{text_of};
ghost use Rattle.script_reader.specs.declared.statement.Statement.{Statement};
ghost use Rattle.core_state.specs.Settings.{AreWithin};
ghost use Rattle.core_state.specs.Sound.{IsSound};
ghost use Rattle.core_state.specs.Submitting.{seat_at};
ghost use Rattle.event_core.specs.Chosen.{AreIdle};
ghost use Rattle.event_core.specs.Seen.{state_of};
ghost use Rattle.script_run.specs.Answer.{CountsHalt};
ghost use Rattle.pipeline_manager.specs.Conditions.{is_open};
ghost use Rattle.pipeline_manager.specs.declared.life.Life.TheVariants.{Waiting};
ghost use Rattle.script_run.specs.Front.{Finishes, GivesStatement, IsRun, Plays, PlaysCounted, RunsOn, TookAllReady};
ghost use Rattle.script_run.specs.Counted.{OnlyTakesReplies, CameToEnd, HasFreeSlot, IsCounted, IsNewFront, MayShareLap};
ghost use Rattle.script_run.specs.Run.{is_refusal};
ghost use Rattle.script_run.specs.Waiting.{is_wait as means_to_wait};

use crate::halt::Halt;
use crate::reply::{is_refusal, text_of};
use crate::waiting::is_wait;
use core_driver::finish_all;
use core_state::{Event, RunSettings, a_reply_that_may_be_taken_is_right, a_row_tells_the_reply};
use event_core::{
    Core, StepFault, every_core_is_sound, idle_cores_lend_nothing, taken_events_are_steps,
};
use pipeline_manager::Life;
use reply_text::Reply;
use script_reader::Statement;
use star_io::{Sink, write_all};
use star_values::NoMemory;
use std::alloc::Global;
use std::hash::RandomState;
use std::marker::Model;
use std::thread::Threads;

/// A core, and how many of its queries are unfinished.
#[derive(Debug, Drop)]
pub(crate) struct Front {
    alloc: Global,

    /// The core, to which the front gives statements as its seat 0.
    pub(crate) core: Core,

    /// The settings of the core.
    settings: RunSettings,

    /// How many statements the core has.
    submitted: u64,

    /// How many queries of the core have not come to their end, each of which waits for a slot.
    pub(crate) unfinished: u32,
}

impl Model for Front {
    ghost use Rattle.event_core.specs.Seen.{state_of};
    ghost use Rattle.script_run.specs.Counted.{FrontParts, KnowsCore};

    ghost Value = { FrontParts };

    ghost use Rattle.star_plan.specs.contracts.star_query.StarQuery as star_query;
    ghost use Rattle.std.specs.Coded.{codes};

    ghost coded = { Prim.hlevel (codes, star_query.the_row.coded) };

    ghost view = { λ front. record { core = front.core; unfinished = front.unfinished } };

    ghost invariant = { λ front. KnowsCore front.settings front.submitted (state_of front.core) };
}

impl Front {
    /// A core of these settings, which hashes by these keys, and to which nothing was given.
    pub(crate) fn new(
        alloc: Global,
        hash_keys: RandomState,
        settings: RunSettings,
    ) -> Result<Front, NoMemory>
        requires { AreWithin settings }
        ensures { IfOk result (IsNewFront settings) }
    {
        let core = Core::new(alloc, hash_keys, settings)?;
        Ok(Front {
            alloc,
            core,
            settings,
            submitted: 0,
            unfinished: 0,
        })
    }

    /// Gives a statement to the core, and writes the replies that are there. At a `wait`, as soon
    /// as as many queries are unfinished as there are slots, and before the reply to a statement
    /// for which no memory was left, all queries come to their end first. Tells whether one of
    /// the replies is a refusal.
    pub(crate) fn play<R: Threads + Sync, K: Sink>(
        &mut self,
        rt: &R,
        statement: Statement,
        sink: &mut K,
    ) -> Result<bool, Halt>
        requires { HasFreeSlot self.old }
        ensures plays { PlaysCounted result (state_of self.old.core)
            (statement ∷ []) (state_of self.new.core)
            (K.writing sink.old).taken (K.writing sink.new).taken }
        ensures runs { RunsOn result self.old self.new (K.writing sink.old) (K.writing sink.new) }
        ensures apart { K.reading_side sink.new ≡ K.reading_side sink.old }
    {
        let waits = self.waits_at(&statement);
        if !self.give(statement) {
            return self.lose(rt, sink);
        }
        if self.is_due(waits) {
            self.play_out(rt, sink)
        } else {
            Ok(false)
        }
    }

    /// Whether a statement is a `wait` before which some query is open. It is taken for none where
    /// no memory is left to tell, and then the replies come later.
    fn waits_at(&self, statement: &Statement) -> bool
        ensures { IsTrue result →
            IsTrue (means_to_wait statement.now) × (0 < self.now.unfinished) }
    {
        self.unfinished > 0 && matches!(is_wait(self.alloc, statement), Ok(true))
    }

    /// Whether the queries are to come to their end, behind a statement that waits for them or not.
    fn is_due(&self, waits: bool) -> bool
        ensures due { IsTrue result → IsTrue waits
            ⊎ ((self.now.unfinished ≡ 0)
            ⊎ ((state_of self.now.core).settings.slots ≤ self.now.unfinished)) }
        ensures not_yet { (result ≡ false) →
            self.now.unfinished < (state_of self.now.core).settings.slots }
    {
        is_due(waits, self.unfinished, self.settings.slots)
    }

    /// Gives a statement to the core, and counts it. Answers whether there was memory for it;
    /// else nothing has changed.
    fn give(&mut self, statement: Statement) -> bool
        requires { HasFreeSlot self.old }
        ensures gives { IsTrue result →
            GivesStatement statement (state_of self.old.core) (state_of self.new.core) }
        ensures counted { IsTrue result → IsCounted self.new }
        ensures lost { (result ≡ false) → self.new ≡ self.old }
    {
        let Some(number) = self.submitted.checked_add(1) else {
            return false;
        };
        let Ok(()) = submit(&mut self.core, statement) else {
            return false;
        };
        self.submitted = number;
        self.unfinished += one_if_waiting(self.core.life(number));
        true
    }

    /// A statement for which no memory was left: the replies before its own are written,
    /// and its own is `memory`.
    fn lose<R: Threads + Sync, K: Sink>(&mut self, rt: &R, sink: &mut K) -> Result<bool, Halt>
        requires { IsCounted self.old }
        ensures plays { (statement : Statement) →
            PlaysCounted result (state_of self.old.core) (statement ∷ []) (state_of self.new.core)
            (K.writing sink.old).taken (K.writing sink.new).taken }
        ensures runs { RunsOn result self.old self.new (K.writing sink.old) (K.writing sink.new) }
        ensures apart { K.reading_side sink.new ≡ K.reading_side sink.old }
    {
        self.play_out(rt, sink)?;
        write_reply(self.alloc, &Reply::Memory, sink)
    }

    /// Lets every query come to its end, and writes all replies that the front waits for.
    pub(crate) fn play_out<R: Threads + Sync, K: Sink>(
        &mut self,
        rt: &R,
        sink: &mut K,
    ) -> Result<bool, Halt>
        requires { IsCounted self.old }
        ensures plays { Plays result (state_of self.old.core) [] (state_of self.new.core)
            (K.writing sink.old).taken (K.writing sink.new).taken }
        ensures ends { OnOk result (CameToEnd self.old self.new) }
        ensures runs { RunsOn result self.old self.new (K.writing sink.old) (K.writing sink.new) }
        ensures some { 0 < (state_of self.old.core).settings.slots }
        ensures apart { K.reading_side sink.new ≡ K.reading_side sink.old }
    {
        self.finish_open(rt)?;
        write_ready(self.alloc, &mut self.core, sink)
    }

    /// Lets every query come to its end, if some is open.
    fn finish_open<R: Threads + Sync>(&mut self, rt: &R) -> Result<(), NoMemory>
        requires { IsCounted self.old }
        ensures finishes { Finishes (state_of self.old.core) (state_of self.new.core) }
        ensures closed { OnOk result
            (All (λ entry. is_open entry.life ≡ false) (state_of self.new.core).lives.queries) }
        ensures waits { OnErr result ((seat_at (state_of self.old.core) 0).pending ≢ []) }
        ensures unfinished { OnOk result (self.new.unfinished ≡ 0) }
        ensures some { 0 < (state_of self.old.core).settings.slots }
    {
        if self.unfinished == 0 {
            return Ok(());
        }
        finish(rt, &mut self.core)?;
        self.unfinished = 0;
        Ok(())
    }

    /// The core, to which no statement is given any more.
    pub(crate) fn into_core(self) -> Core
        ensures { result ≡ self.core }
    {
        self.core
    }
}

/// The core of every front is sound.
pub(crate) fn every_front_is_sound(front: &Front)
    ensures { IsSound (state_of front.now.core) }
{
    every_core_is_sound(&front.core);
}

/// Whether queries are to come to their end. Where none is open, the replies may be written, and
/// else none can be before.
fn is_due(waits: bool, unfinished: u32, slots: u32) -> bool
    ensures due { IsTrue result → IsTrue waits ⊎ ((unfinished ≡ 0) ⊎ (slots ≤ unfinished)) }
    ensures not_yet { (result ≡ false) → unfinished < slots }
{
    waits || unfinished == 0 || unfinished >= slots
}

/// One for a query that waits for a slot, and none for what is no query.
fn one_if_waiting(life: Option<Life>) -> u32
    ensures waits { life ≡ Some Waiting → result ≡ 1 }
    ensures none { life ≡ None → result ≡ 0 }
    ensures few { result ≤ 1 }
{
    match life {
        Some(Life::Waiting) => 1,
        _ => 0,
    }
}

/// Gives a statement to a core as that of the front, which is seat 0 and there in every core. No
/// batch is in a hand. If no memory is left for it, nothing has changed.
fn submit(core: &mut Core, statement: Statement) -> Result<(), NoMemory>
    requires { AreIdle (state_of core.old) }
    ensures gives { OnOk result (GivesStatement statement (state_of core.old) (state_of core.new)) }
    ensures err { OnErr result (core.new ≡ core.old) }
{
    // Both are called for what they ensure.
    every_core_is_sound(core);
    idle_cores_lend_nothing(core);
    match core.step(Event::Submit { seat: 0, statement }) {
        Ok(()) => Ok(()),
        Err(StepFault::Memory) => Err(NoMemory),
        Err(StepFault::NotEnabled) => unreachable!(),
    }
}

/// Lets every query come to its end, where each waits and they are no more than there are slots.
fn finish<R: Threads + Sync>(rt: &R, core: &mut Core) -> Result<(), NoMemory>
    requires { MayShareLap (state_of core.old) }
    ensures finishes { Finishes (state_of core.old) (state_of core.new) }
    ensures number { (state_of core.new).numbers.statement ≡ (state_of core.old).numbers.statement }
    ensures closed { OnOk result
        (All (λ entry. is_open entry.life ≡ false) (state_of core.new).lives.queries) }
    ensures waits { OnErr result ((seat_at (state_of core.old) 0).pending ≢ []) }
    ensures hands { AreIdle (state_of core.new) }
{
    taken_events_are_steps();
    every_core_is_sound(core);
    finish_all(rt, core)
}

/// Writes the replies that may be taken, in their order, and tells whether
/// one of them is a refusal.
fn write_ready<K: Sink>(alloc: Global, core: &mut Core, sink: &mut K) -> Result<bool, Halt>
    ensures plays { Plays result (state_of core.old) [] (state_of core.new)
        (K.writing sink.old).taken (K.writing sink.new).taken }
    ensures all { OnOk result (TookAllReady (state_of core.old) (state_of core.new)) }
    ensures run { IsRun (state_of core.old) (state_of core.new) }
    ensures beside { OnlyTakesReplies (state_of core.old) (state_of core.new) }
    ensures faults { CountsHalt result (K.writing sink.old) (K.writing sink.new) }
    ensures apart { K.reading_side sink.new ≡ K.reading_side sink.old }
{
    // The three are called for what they ensure.
    a_row_tells_the_reply();
    a_reply_that_may_be_taken_is_right();
    every_core_is_sound(core);
    let mut refused = false;
    'replies: while let Some(ready) = core.take_reply(0) {
        let reply = ready.into_reply();
        let written = write_reply(alloc, &reply, sink);
        drop(reply);
        refused |= written?;
    }
    Ok(refused)
}

/// Writes a reply, and tells whether it is a refusal. Where that halts, not all of it was written.
pub(crate) fn write_reply<K: Sink>(alloc: Global, reply: &Reply, sink: &mut K) -> Result<bool, Halt>
    ensures refused { IfOk result (λ refused. refused ≡ is_refusal reply.now) }
    ensures ok { OnOk result (Appends
        (K.writing sink.old).taken (K.writing sink.new).taken (text_of reply.now)) }
    ensures err { OnErr result (AppendsFront
        (K.writing sink.old).taken (K.writing sink.new).taken (text_of reply.now)) }
    ensures faults { CountsHalt result (K.writing sink.old) (K.writing sink.new) }
    ensures apart { K.reading_side sink.new ≡ K.reading_side sink.old }
{
    let text = text_of(alloc, reply)?;
    write_all(sink, text.as_bytes())?;
    Ok(is_refusal(reply))
}
