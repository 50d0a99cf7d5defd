//! Turns, and the text of each.

ghost use Rattle.std.specs.Prelude.{◌≡◌, ◌++◌, ◌∷◌, [], ◌<◌, ℕ, List, length, OnOk, IfOk, IfErr};
ghost use Rattle.bl_replay.specs.declared.fault.ReplayFault.TheVariants as fault;
ghost use Rattle.bl_world.specs.declared.turns.Act.TheVariants as act;
ghost use Rattle.bl_world.specs.declared.turns.Event.{Event as AnyEvent};
ghost use Rattle.bl_world.specs.Views.{number_in};
ghost use Rattle.bl_world.specs.Turns.{TurnsTo, IsStarted};
ghost use Rattle.bl_replay.specs.Pages.{put_text};
ghost use Rattle.bl_replay.specs.Plays.{HasAnswer, Prints, new_answer};

use crate::fault::ReplayFault;
use crate::pages::push_page_line;
use crate::text::{push_answer_line, push_event};
use bl_proc::Answer;
use bl_world::{Act, Event, Turn, World, WorldFault};
use std::alloc::AllocError;

/// The answer of a process that was started.
pub fn answer_of(world: &World, number: usize) -> Option<Answer>
    requires { IsStarted world.now number }
    ensures { HasAnswer world.now number result }
{
    world.answer(number)
}

/// The last event of a world.
fn last_event(world: &World) -> Event
    requires { (events : List AnyEvent) × (last : AnyEvent) × (world.now.events ≡ events ++ last ∷ []) }
    ensures { (events : List AnyEvent) (last : AnyEvent) → world.now.events ≡ events ++ last ∷ [] → result ≡ last }
{
    let steps = world.steps();
    steps[steps.len() - 1]
}

/// Gives a process a turn, and finds the event that it was.
fn take_turn(world: &mut World, turn: Turn) -> Result<Event, ReplayFault>
    requires { IsStarted world.old (number_in turn) }
    ensures turned { OnOk result (TurnsTo world.old turn world.new) }
    ensures err { IfErr result (λ why. why ≡ fault.Memory) }
    ensures event { IfOk result (λ event. world.new.events ≡ world.old.events ++ event ∷ []) }
{
    match world.run(&[turn]) {
        Ok(()) => Ok(last_event(world)),
        Err(WorldFault::Memory) => Err(ReplayFault::Memory),
        Err(WorldFault::NoSuchProcess) | Err(WorldFault::BadPages) => unreachable!(),
    }
}

/// Appends the line of an answer that was not there before.
fn push_new(
    out: &mut Vec<u8>,
    number: usize,
    before: &Option<Answer>,
    after: &Option<Answer>,
) -> Result<(), AllocError>
    ensures { OnOk result (out.new.items ≡ out.old.items ++ new_answer number before.now after.now) }
{
    match (before, after) {
        (None, Some(answer)) => push_answer_line(out, number, answer),
        (None, None) | (Some(_), _) => Ok(()),
    }
}

/// Appends the line of the page that an event has put, which is there, where such lines are wanted.
fn push_put(
    out: &mut Vec<u8>,
    world: &World,
    event: Event,
    with_pages: bool,
) -> Result<(), AllocError>
    requires { (x : ℕ) → event.act ≡ act.Put x → x < length world.now.pages }
    ensures { OnOk result (out.new.items ≡ out.old.items ++ put_text with_pages event world.now.pages) }
{
    if !with_pages {
        return Ok(());
    }
    match event.act {
        Act::Put(at) => match world.page(at) {
            Some(page) => push_page_line(out, event.process, at, &page),
            None => unreachable!(),
        },
        _ => Ok(()),
    }
}

/// Gives the process with that number a turn, and appends its text; behind a put also what stands in its page then, where that
/// is wanted.
pub fn print_turn(
    world: &mut World,
    number: usize,
    turn: Turn,
    with_pages: bool,
    out: &mut Vec<u8>,
) -> Result<(), ReplayFault>
    requires started { IsStarted world.old number }
    requires same { number_in turn ≡ number }
    ensures ok { OnOk result ((text : List ℕ)
        × Prints with_pages world.old number turn text world.new
        × (out.new.items ≡ out.old.items ++ text)) }
    ensures err { IfErr result (λ why. why ≡ fault.Memory) }
    ensures count { OnOk result (length world.new.processes ≡ length world.old.processes) }
    ensures size { OnOk result (length world.new.pages ≡ length world.old.pages) }
{
    world.has_what_is_put();
    let before = answer_of(world, number);
    let event = take_turn(world, turn)?;
    let after = answer_of(world, number);
    push_event(out, event)?;
    push_put(out, world, event, with_pages)?;
    push_new(out, number, &before, &after)?;
    Ok(())
}
