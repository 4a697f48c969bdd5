//! A batch is out with a worker, and is written and folded there, while the slot of a query that is
//! over is cleared and another query takes it. Meanwhile a load has to wait. Once the tables are
//! returned, a load is taken.
ghost use Rattle.std.specs.Prelude.{◌≡◌, ◌<◌, None};
ghost use Rattle.core_state.specs.Found.{held_by};
ghost use Rattle.core_state.specs.Rows.{IsMindful};
ghost use Rattle.event_core.specs.Board.{core_row};
ghost use Rattle.event_core.specs.Chosen.{AreManaged, IsManaged, IsOfKind};
ghost use Rattle.event_core.specs.Seen.{state_of};
ghost use Rattle.worker_gate.specs.Hands.{HasWork};
ghost use Rattle.worker_gate.specs.Left.{LeavesAllLoans, LeavesRows};

use core_state::{
    Event, RunSettings, a_statement_and_a_reply_move_the_row_of_their_seat, a_step_moves_one_row,
    a_work_stays_right, every_step_keeps_a_core_sound,
};
use event_core::{
    Core, EventKind, Ready, SubmitFault, every_core_is_sound, what_is_beside_stays_lent,
};
use pipeline_manager::Life;
use reply_text::print_reply;
use script_reader::{NextStatement, ScriptReader, Statement};
use star_store::ReadStatement;
use star_values::{ByteText, NoMemory};
use std::alloc::Global;
use std::hash::RandomState;
use std::test::Fail;
use worker_gate::{Carried, NoGate, TakenWork, do_work, give_work, take_work};

/// A core with a seat that submits, and seat 1, which works. A batch has two rows.
const SETTINGS: RunSettings = RunSettings {
    workers: 1,
    slots: 2,
    batch: 2,
    seats: 2,
};

/// Two batches of rows, each with a row of each city. The queries have the numbers 5, 6 and 8.
///
/// The first load of a third store comes while the tables are lent, and has to wait. Each of the
/// three loads after it comes after the tables could have gone out, and is taken.
const SCRIPT: &str = "dimension store (id int key, city text)
fact sales (store_id int references store, units int)
load store
1,Oslo
2,Rome
.
load sales
1,5
2,1
1,10
2,3
.
select count(*) from sales
select count(*) from sales, store where store_id = id and city = 'Oslo'
load store
3,Rome
.
load store
3,Bern
.
select count(*) from sales, store where store_id = id and city = 'Rome'
load store
4,Bonn
.
load store
5,Cork
.
";

/// The replies to it.
const REPLIES: &str = "table store
table sales
commit 1 rows 2
commit 2 rows 4
answer 2 rows 1
4
answer 2 rows 1
2
commit 3 rows 1
answer 3 rows 1
2
commit 4 rows 1
commit 5 rows 1
";

/// What comes to the core while a batch is out.
#[derive(Clone, Copy, Debug)]
enum Meanwhile {
    Nothing,

    /// A statement that changes the tables, which are lent.
    HasToWait,

    /// A query for which a slot is held is built, and begins.
    Begins,

    /// The slot of a query that is over is cleared and free, and the next query has it, and begins.
    TakesTheSlot,
}

/// Makes an event of a kind, and says whether it came.
fn make(core: &mut Core, kind: EventKind, event: Event) -> bool
    requires kind { IsOfKind kind event }
    requires managed { IsManaged kind }
    ensures leaves { LeavesRows (state_of core.old) (state_of core.new) }
    ensures loans { LeavesAllLoans core.old core.new }
{
    // All three are called for what they ensure.
    every_core_is_sound(core);
    a_step_moves_one_row();
    what_is_beside_stays_lent();
    match core.step(event) {
        Ok(()) => true,
        Err(_) => false,
    }
}

/// Makes the event of a kind that may come now, and says whether there was one.
fn make_one(core: &mut Core, kind: EventKind) -> bool
    requires { IsManaged kind }
    ensures leaves { LeavesRows (state_of core.old) (state_of core.new) }
    ensures loans { LeavesAllLoans core.old core.new }
{
    match core.next_event(kind) {
        Some(event) => make(core, kind, event),
        None => false,
    }
}

/// Makes an event of each of these kinds, in turn, and says whether there was one of each.
fn make_each(core: &mut Core, kinds: &[EventKind]) -> bool
    requires { AreManaged kinds.now }
    ensures mindful { IsMindful 0 (state_of core.old) (state_of core.new) }
    ensures loans { LeavesAllLoans core.old core.new }
{
    let mut all = true;
    'kinds: for kind in kinds {
        all &= make_one(core, *kind);
    }
    all
}

/// Submits a statement of seat 0.
fn submit_one(core: &mut Core, statement: &Statement) -> Result<(), SubmitFault>
    ensures mindful { IsMindful 0 (state_of core.old) (state_of core.new) }
    ensures loans { LeavesAllLoans core.old core.new }
{
    // Both are called for what they ensure.
    a_statement_and_a_reply_move_the_row_of_their_seat();
    what_is_beside_stays_lent();
    core.submit_read(0, &mut ReadStatement::unread(statement))
}

/// Gives a statement of seat 0 to the core, and says whether it took it.
fn give(core: &mut Core, statement: &Statement) -> bool
    ensures mindful { IsMindful 0 (state_of core.old) (state_of core.new) }
    ensures loans { LeavesAllLoans core.old core.new }
{
    submit_one(core, statement).is_ok()
}

/// Gives a statement of seat 0 to the core, and says whether it has to wait.
fn has_to_wait(core: &mut Core, statement: &Statement) -> bool
    ensures mindful { IsMindful 0 (state_of core.old) (state_of core.new) }
    ensures loans { LeavesAllLoans core.old core.new }
{
    submit_one(core, statement) == Err(SubmitFault::Busy)
}

/// The next statement of a script, if there is one, and memory for it.
fn next_of(script: &mut ScriptReader) -> Option<Statement> {
    match script.next_statement() {
        Ok(NextStatement::Got(statement)) => Some(statement),
        Ok(NextStatement::NotYet | NextStatement::End) => None,
        Err(NoMemory) => None,
    }
}

/// Gives the next statement of a script to the core, and says whether it could.
fn give_next(core: &mut Core, script: &mut ScriptReader) -> bool
    ensures mindful { IsMindful 0 (state_of core.old) (state_of core.new) }
    ensures loans { LeavesAllLoans core.old core.new }
{
    match next_of(script) {
        Some(statement) => give(core, &statement),
        None => false,
    }
}

/// Whether the next statement of a script has to wait.
fn next_has_to_wait(core: &mut Core, script: &mut ScriptReader) -> bool
    ensures mindful { IsMindful 0 (state_of core.old) (state_of core.new) }
    ensures loans { LeavesAllLoans core.old core.new }
{
    match next_of(script) {
        Some(statement) => has_to_wait(core, &statement),
        None => false,
    }
}

/// Gives so many statements of a script to the core, and says whether it could.
fn submit(core: &mut Core, script: &mut ScriptReader, count: u32) -> bool
    ensures mindful { IsMindful 0 (state_of core.old) (state_of core.new) }
    ensures loans { LeavesAllLoans core.old core.new }
{
    let mut all = true;
    'statements: for _ in 0..count {
        all &= give_next(core, script);
    }
    all
}

/// The slot of a query that is over is cleared and free, and the next query has it, and begins.
fn take_the_slot(core: &mut Core, script: &mut ScriptReader) -> bool
    ensures mindful { IsMindful 0 (state_of core.old) (state_of core.new) }
    ensures loans { LeavesAllLoans core.old core.new }
{
    let freed = make_each(core, &[EventKind::Clear, EventKind::Release]);
    let submitted = submit(core, script, 1);
    let begun = make_each(
        core,
        &[EventKind::Reserve, EventKind::Build, EventKind::Start],
    );
    freed & submitted & begun
}

/// Lets come what is to come while a batch is out, and says whether all came.
fn come(core: &mut Core, script: &mut ScriptReader, meanwhile: Meanwhile) -> bool
    ensures mindful { IsMindful 0 (state_of core.old) (state_of core.new) }
    ensures loans { LeavesAllLoans core.old core.new }
{
    match meanwhile {
        Meanwhile::Nothing => true,
        Meanwhile::HasToWait => next_has_to_wait(core, script),
        Meanwhile::Begins => make_each(core, &[EventKind::Build, EventKind::Start]),
        Meanwhile::TakesTheSlot => take_the_slot(core, script),
    }
}

/// Lets things come while a work is out, then does it and gives it back. Says whether all came,
/// whether these are the bits of its rows then, and whether they were folded outside, unless
/// the core is marked waiting.
fn do_behind(
    core: &mut Core,
    script: &mut ScriptReader,
    meanwhile: Meanwhile,
    carried: Carried,
    bits: &[u64],
) -> bool
    requires { HasWork carried (core_row core.old 1) }
    ensures settings { (state_of core.new).settings ≡ (state_of core.old).settings }
    ensures empty { held_by (state_of core.new).scan.flights 1 ≡ None }
{
    let came = come(core, script, meanwhile);
    let done = do_work(carried, 1, &NoGate);
    let kept = done.batch.all_bits() == bits;
    let folded = done.folding.is_some() != core.is_waiting();
    give_work(core, 1, done);
    came & kept & folded
}

/// The worker takes a batch, lets it pass behind what comes meanwhile, and gives it back. Says
/// whether there was one, and all is as it should be.
fn pass(core: &mut Core, script: &mut ScriptReader, meanwhile: Meanwhile, bits: &[u64]) -> bool
    requires seat { 1 < (state_of core.old).settings.seats }
    requires empty { held_by (state_of core.old).scan.flights 1 ≡ None }
    ensures seat { 1 < (state_of core.new).settings.seats }
    ensures empty { held_by (state_of core.new).scan.flights 1 ≡ None }
{
    match take_work(core, 1) {
        TakenWork::Got(work) => do_behind(core, script, meanwhile, Carried::Written(work), bits),
        TakenWork::Nothing => false,
    }
}

/// The worker cuts a batch, which it writes behind what comes meanwhile, lets it pass, and gives it
/// back. Says whether there was one, and all is as it should be.
fn cut_and_pass(
    core: &mut Core,
    script: &mut ScriptReader,
    meanwhile: Meanwhile,
    bits: &[u64],
) -> bool
    requires seat { 1 < (state_of core.old).settings.seats }
    requires empty { held_by (state_of core.old).scan.flights 1 ≡ None }
    ensures seat { 1 < (state_of core.new).settings.seats }
    ensures empty { held_by (state_of core.new).scan.flights 1 ≡ None }
{
    // All four are called for what they ensure.
    every_core_is_sound(core);
    a_step_moves_one_row();
    a_work_stays_right();
    every_step_keeps_a_core_sound();
    if !core.enabled(&Event::Cut) {
        return false;
    }
    match core.cut_for(1) {
        Some(blank) => do_behind(core, script, meanwhile, Carried::Blank(blank), bits),
        None => false,
    }
}

/// Gives so many statements to the core, and then makes an event of each of these kinds. Says
/// whether all came.
fn go_on(core: &mut Core, script: &mut ScriptReader, count: u32, kinds: &[EventKind]) -> bool
    requires managed { AreManaged kinds.now }
    requires seat { 1 < (state_of core.old).settings.seats }
    requires empty { held_by (state_of core.old).scan.flights 1 ≡ None }
    ensures seat { 1 < (state_of core.new).settings.seats }
    ensures empty { held_by (state_of core.new).scan.flights 1 ≡ None }
{
    let submitted = submit(core, script, count);
    let made = make_each(core, kinds);
    submitted & made
}

/// Whether a query has its four rows before it, from the position 2 on.
fn enters_at_two(core: &Core, query: u64) -> bool {
    core.life(query) == Some(Life::Running { start: 2, left: 4 })
}

/// A query begins at the first row, and behind the first batch another enters.
fn enter_in_mid_table(core: &mut Core, script: &mut ScriptReader) -> bool
    requires seat { 1 < (state_of core.old).settings.seats }
    requires empty { held_by (state_of core.old).scan.flights 1 ≡ None }
    ensures seat { 1 < (state_of core.new).settings.seats }
    ensures empty { held_by (state_of core.new).scan.flights 1 ≡ None }
{
    let begin = [
        EventKind::Reserve,
        EventKind::Build,
        EventKind::Start,
        EventKind::Cut,
    ];
    let mut all = go_on(core, script, 5, &begin);
    all &= go_on(core, script, 1, &[EventKind::Reserve]);
    all &= pass(core, script, Meanwhile::Begins, &[1, 1]);
    all &= enters_at_two(core, 6);
    all & go_on(core, script, 0, &[EventKind::Cut])
}

/// The second batch is of both. Only after it is the first query over. A load is taken once the
/// tables that its rows were folded with are returned.
fn finish_the_first(core: &mut Core, script: &mut ScriptReader) -> bool
    requires seat { 1 < (state_of core.old).settings.seats }
    requires empty { held_by (state_of core.old).scan.flights 1 ≡ None }
    ensures seat { 1 < (state_of core.new).settings.seats }
    ensures empty { held_by (state_of core.new).scan.flights 1 ≡ None }
{
    let mut all = !go_on(core, script, 0, &[EventKind::Finish]);
    all &= pass(core, script, Meanwhile::HasToWait, &[3, 1]);
    all & go_on(core, script, 1, &[EventKind::Finish])
}

/// The third batch is of the second query, and is out while a third takes the slot of the first:
/// only then are its rows written. A load is taken once the tables are returned.
fn finish_the_second(core: &mut Core, script: &mut ScriptReader) -> bool
    requires seat { 1 < (state_of core.old).settings.seats }
    requires empty { held_by (state_of core.old).scan.flights 1 ≡ None }
    ensures seat { 1 < (state_of core.new).settings.seats }
    ensures empty { held_by (state_of core.new).scan.flights 1 ≡ None }
{
    let mut all = cut_and_pass(core, script, Meanwhile::TakesTheSlot, &[2, 0]);
    all &= enters_at_two(core, 8);
    all & go_on(core, script, 1, &[EventKind::Finish, EventKind::Cut])
}

/// Two batches more are of the third. The core is marked waiting, so they are folded at home. No
/// groups go out as the second of them is cut: it is cut alone, and a load is taken.
fn finish_the_third(core: &mut Core, script: &mut ScriptReader) -> bool
    requires seat { 1 < (state_of core.old).settings.seats }
    requires empty { held_by (state_of core.old).scan.flights 1 ≡ None }
{
    core.mark_waiting(true);
    let mut all = pass(core, script, Meanwhile::Nothing, &[0, 1]);
    all &= go_on(core, script, 0, &[EventKind::Distribute]);
    all &= !cut_and_pass(core, script, Meanwhile::Nothing, &[0, 1]);
    all &= go_on(core, script, 1, &[]);
    all &= pass(core, script, Meanwhile::Nothing, &[0, 1]);
    all & go_on(core, script, 0, &[EventKind::Distribute, EventKind::Finish])
}

/// All of it.
fn play(core: &mut Core, script: &mut ScriptReader) -> bool
    requires seat { 1 < (state_of core.old).settings.seats }
    requires empty { held_by (state_of core.old).scan.flights 1 ≡ None }
{
    let mut all = enter_in_mid_table(core, script);
    all &= finish_the_first(core, script);
    all &= finish_the_second(core, script);
    all & finish_the_third(core, script)
}

/// Appends the text of a reply.
fn tell(ready: Ready, told: &mut ByteText) -> Result<(), NoMemory> {
    print_reply(&ready.into_reply(), told)
}

/// Takes the replies of seat 0, ten at most, and appends their texts.
fn tell_all(core: &mut Core, told: &mut ByteText) -> Result<(), NoMemory> {
    for _ in 0..10 {
        match core.take_reply(0) {
            None => return Ok(()),
            Some(ready) => tell(ready, told)?,
        }
    }
    Ok(())
}

/// Whether all comes as it is to come, and these are the replies.
fn replies(core: &mut Core, script: &mut ScriptReader, alloc: Global) -> Result<bool, NoMemory>
    requires seat { 1 < (state_of core.old).settings.seats }
    requires empty { held_by (state_of core.old).scan.flights 1 ≡ None }
{
    let came = play(core, script);
    let mut told = ByteText::new(alloc);
    tell_all(core, &mut told)?;
    Ok(came && told.as_bytes() == REPLIES.as_bytes())
}

/// The reader of the script.
fn script_of(alloc: Global) -> Result<ScriptReader, NoMemory> {
    let mut script = ScriptReader::new(alloc);
    if script.feed(SCRIPT.as_bytes()).is_err() {
        return Err(NoMemory);
    }
    script.finish();
    Ok(script)
}

/// Whether it is so over a new core.
fn replies_anew(
    alloc: Global,
    hash_keys: RandomState,
    script: &mut ScriptReader,
) -> Result<bool, NoMemory> {
    let mut core = Core::new(alloc, hash_keys, SETTINGS)?;
    replies(&mut core, script, alloc)
}

#[test]
fn a_batch_is_out_while_a_slot_is_taken_again(rt: HostRuntime) -> Result<(), Fail> {
    let mut script = script_of(rt.alloc())?;
    assert!(rt; replies_anew(rt.alloc(), RandomState::new(&rt)?, &mut script)?);
    Ok(())
}
