//! Commands, and what each prints.

ghost use Rattle.std.specs.Prelude.{◌≡◌, ◌⊎◌, ◌≤◌, ◌+◌, ◌++◌, ◌∷◌, [], true, ℕ, List, Err, length, OnOk, OnErr, IfErr};
ghost use Rattle.bl_model.specs.Stream.{StartsOut};
ghost use Rattle.bl_replay_script.specs.Commands.{MayStart, MayStand, starts};
ghost use Rattle.bl_replay_script.specs.declared.command.Command.TheVariants as command;
ghost use Rattle.bl_world.specs.Views.{View, number_in};
ghost use Rattle.bl_world.specs.Turns.{IsStarted};
ghost use Rattle.bl_world.specs.WorldSteps.{MayStart as MayBegin, Starts};
ghost use Rattle.bl_replay.specs.declared.fault.ReplayFault.TheVariants as fault;
ghost use Rattle.bl_model.specs.Writes.{IsRead};
ghost use Rattle.bl_proc_steps.specs.declared.acts.Action.TheVariants as act;
ghost use Rattle.bl_proc.specs.declared.kinds.Proc.{Proc as AnyProc};
ghost use Rattle.bl_proc.specs.Processes.{next_of};
ghost use Rattle.bl_replay.specs.Plays.{Prints, PrintsChosen, PrintsTurns, PrintsSettling, Reads, Carries, IsStart, Does, all_kinds};
ghost use Rattle.bl_replay.specs.Emits.{Emits, Partly};

use crate::fault::ReplayFault;
use crate::output::write_much;
use crate::turning::{answer_of, print_turn};
use bl_model::{Op, Watched};
use bl_proc::{Find, Part, Proc};
use bl_replay_script::{Command, Start};
use bl_world::{Turn, World, WorldFault};
use std::io::Write;

/// The process that reads so.
fn reader_of(op: Op) -> Proc
    requires { IsRead op }
    ensures made { Reads op result }
    ensures begins { next_of result ≡ act.Begin }
{
    match op {
        Op::Find(key) => Proc::find(key),
        Op::Part(from) => Proc::part(from),
        Op::PartDown(from) => Proc::part_down(from),
        _ => unreachable!(),
    }
}

/// The process that carries the operation out.
fn process_for(op: Op) -> Proc
    ensures made { Carries op result }
    ensures begins { next_of result ≡ act.Begin }
{
    match op.write() {
        Some((key, write)) => Proc::write(key, write),
        None => reader_of(op),
    }
}

/// The process that a script starts.
fn process_of(start: Start) -> Proc
    requires { (pages : ℕ) × MayStart all_kinds pages start }
    ensures made { IsStart start result }
    ensures begins { (v : View) → MayStart all_kinds (length v.pages) start → MayBegin v result }
{
    match start {
        Start::Operation(op) => process_for(op),
        Start::InsertPost { key, value } => Proc::insert_posting(key, value),
        Start::PutPost { key, value } => Proc::put_posting(key, value),
        Start::Post { level, key } => Proc::post(level, key),
        Start::FindNear { key, page } => Proc::Find(Find::near(key, page)),
        Start::PartNear { from, page } => Proc::Part(Part::near(from, page)),
        Start::Compress { level, key } => Proc::compress(level, key),
        Start::Reclaim(page) => Proc::reclaim(page),
        Start::Lower => Proc::lower(),
    }
}

/// Starts a process.
fn start(world: &mut World, start: Start) -> Result<(), ReplayFault>
    requires { MayStart all_kinds (length world.old.pages) start }
    ensures ok { OnOk result ((p : AnyProc) × IsStart start p × Starts world.old p world.new) }
    ensures count { OnOk result (length world.new.processes ≡ length world.old.processes + 1) }
    ensures size { OnOk result (length world.new.pages ≡ length world.old.pages) }
    ensures err { IfErr result (λ why. why ≡ fault.Memory) }
{
    match world.start(process_of(start)) {
        Ok(_) => Ok(()),
        Err(_) => Err(ReplayFault::Memory),
    }
}

/// Gives a process a turn, and prints it.
fn play_turn<W: Write>(
    world: &mut World,
    number: usize,
    turn: Turn,
    with_pages: bool,
    pending: &mut Vec<u8>,
    writer: &mut Watched<W>,
) -> Result<(), ReplayFault>
    requires started { IsStarted world.old number }
    requires same { number_in turn ≡ number }
    ensures ok { OnOk result ((text : List ℕ)
        × Prints with_pages world.old number turn text world.new
        × Emits (W.contents writer.old.inner) (W.contents writer.new.inner) pending.old.items pending.new.items text) }
    ensures count { OnOk result (length world.new.processes ≡ length world.old.processes) }
    ensures size { OnOk result (length world.new.pages ≡ length world.old.pages) }
    ensures err { OnErr result ((text : List ℕ)
        × ((text ≡ []) ⊎ ((after : View) × Prints with_pages world.old number turn text after))
        × StartsOut (W.contents writer.old.inner) (W.contents writer.new.inner) (pending.old.items ++ text)) }
    ensures write { result ≡ Err fault.Write → writer.new.failed ≡ true }
{
    print_turn(world, number, turn, with_pages, pending)?;
    write_much(writer, pending)
}

/// Gives a process the turn that is chosen for it, and prints it.
fn play_chosen<W: Write>(
    world: &mut World,
    number: usize,
    page: Option<u32>,
    with_pages: bool,
    pending: &mut Vec<u8>,
    writer: &mut Watched<W>,
) -> Result<(), ReplayFault>
    requires { IsStarted world.old number }
    ensures ok { OnOk result ((text : List ℕ)
        × PrintsChosen with_pages world.old number page text world.new
        × Emits (W.contents writer.old.inner) (W.contents writer.new.inner) pending.old.items pending.new.items text) }
    ensures count { OnOk result (length world.new.processes ≡ length world.old.processes) }
    ensures size { OnOk result (length world.new.pages ≡ length world.old.pages) }
    ensures err { OnErr result ((text : List ℕ)
        × ((text ≡ []) ⊎ ((after : View) × PrintsChosen with_pages world.old number page text after))
        × StartsOut (W.contents writer.old.inner) (W.contents writer.new.inner) (pending.old.items ++ text)) }
    ensures write { result ≡ Err fault.Write → writer.new.failed ≡ true }
{
    let turn = world.turn_of(number, page);
    play_turn(world, number, turn, with_pages, pending, writer)
}

/// Gives a process turns, at most so many, until it has answered, and prints them.
fn play_run<W: Write>(
    world: &mut World,
    number: usize,
    most: u64,
    with_pages: bool,
    pending: &mut Vec<u8>,
    writer: &mut Watched<W>,
) -> Result<(), ReplayFault>
    requires { IsStarted world.old number }
    ensures ok { OnOk result ((text : List ℕ)
        × Does with_pages world.old (command.Run number most) text world.new
        × Emits (W.contents writer.old.inner) (W.contents writer.new.inner) pending.old.items pending.new.items text) }
    ensures count { OnOk result (length world.new.processes ≡ length world.old.processes) }
    ensures size { OnOk result (length world.new.pages ≡ length world.old.pages) }
    ensures err { OnErr result ((text : List ℕ) × (count : ℕ) × (after : View)
        × (count ≤ most) × PrintsTurns with_pages number world.old count text after
        × StartsOut (W.contents writer.old.inner) (W.contents writer.new.inner) (pending.old.items ++ text)) }
    ensures write { result ≡ Err fault.Write → writer.new.failed ≡ true }
{
    for _ in 0..most {
        match answer_of(world, number) {
            Some(_) => return Ok(()),
            None => play_chosen(world, number, None, with_pages, pending, writer)?,
        }
    }
    Ok(())
}

/// Gives turns to processes that may go on, at most so many, until all have answered, and prints them.
fn play_settle<W: Write>(
    world: &mut World,
    most: u64,
    with_pages: bool,
    pending: &mut Vec<u8>,
    writer: &mut Watched<W>,
) -> Result<(), ReplayFault>
    ensures ok { OnOk result ((text : List ℕ)
        × Does with_pages world.old (command.Settle most) text world.new
        × Emits (W.contents writer.old.inner) (W.contents writer.new.inner) pending.old.items pending.new.items text) }
    ensures count { OnOk result (length world.new.processes ≡ length world.old.processes) }
    ensures size { OnOk result (length world.new.pages ≡ length world.old.pages) }
    ensures err { OnErr result ((text : List ℕ) × (count : ℕ) × (after : View)
        × (count ≤ most) × PrintsSettling with_pages world.old count text after
        × StartsOut (W.contents writer.old.inner) (W.contents writer.new.inner) (pending.old.items ++ text)) }
    ensures write { result ≡ Err fault.Write → writer.new.failed ≡ true }
{
    for _ in 0..most {
        match world.ready() {
            Some(number) => play_chosen(world, number, None, with_pages, pending, writer)?,
            None => return Ok(()),
        }
    }
    Ok(())
}

/// Carries out a command, and prints what it does.
pub fn play_command<W: Write>(
    world: &mut World,
    command: Command,
    with_pages: bool,
    pending: &mut Vec<u8>,
    writer: &mut Watched<W>,
) -> Result<(), ReplayFault>
    requires { MayStand all_kinds (length world.old.pages) (length world.old.processes) command }
    ensures ok { OnOk result ((text : List ℕ)
        × Does with_pages world.old command text world.new
        × Emits (W.contents writer.old.inner) (W.contents writer.new.inner) pending.old.items pending.new.items text) }
    ensures count { OnOk result (length world.new.processes ≡ length world.old.processes + starts command) }
    ensures size { OnOk result (length world.new.pages ≡ length world.old.pages) }
    ensures err { OnErr result ((text : List ℕ) × Partly with_pages world.old command text
        × StartsOut (W.contents writer.old.inner) (W.contents writer.new.inner) (pending.old.items ++ text)) }
    ensures write { result ≡ Err fault.Write → writer.new.failed ≡ true }
{
    match command {
        Command::Start(process) => start(world, process),
        Command::Turn(number) => play_chosen(
            world,
            number as usize,
            None,
            with_pages,
            pending,
            writer,
        ),
        Command::TurnAt(number, page) => play_chosen(
            world,
            number as usize,
            Some(page),
            with_pages,
            pending,
            writer,
        ),
        Command::Refuse(number) => {
            let turn = Turn::Refuse(number as usize);
            play_turn(world, number as usize, turn, with_pages, pending, writer)
        }
        Command::Run(number, most) => play_run(
            world,
            number as usize,
            most,
            with_pages,
            pending,
            writer,
        ),
        Command::Settle(most) => play_settle(world, most, with_pages, pending, writer),
    }
}
