//! The command of a bot.
ghost use Rattle.std.specs.Prelude.{◌≡◌, ◌∷◌, [], None, Some, IfOk, codes, string_bytes};
ghost use Rattle.sw_base.specs.Files.{FilesState};
ghost use Rattle.sw_base.specs.Listeners.{ListenerState};
ghost use Rattle.swarm_keeper.specs.Stores.{StoreState};
ghost use Rattle.client_requests.specs.Addresses.{address_of};
ghost use Rattle.bot_dimensions.specs.Pairs.{fitting_pairs};
ghost use Rattle.command_words.specs.Commands.{BotOptions, options_of};
ghost use Rattle.remote_commands.specs.Clients.{Fits, first_unfit};
ghost use Rattle.remote_commands.specs.BotCommands.{IsNewBot, RunsBotCommand, bot_tests, dimensions_test, limits_of, name_test, stop_line as spec_stop_line, stop_status as spec_stop_status, why_word as spec_why_word};
ghost use Rattle.remote_commands.specs.Streams.{PrintsMade};
ghost use Rattle.remote_commands.specs.Environment.{environment};

use crate::option_fault::OptionFault;
use crate::options::{print_option_fault, server_of};
use bot_core::{BotLimits, StopWhy};
use bot_dimensions::{PairsFault, read_pairs};
use bot_requests::Hands;
use bot_turns::{Stopped, run_bot};
use client_requests::ServerAddress;
use command_words::Bot;
use dimensions::{Seq, Text};
use link_writer::print;
use named_caches::CacheTable;
use runners::Runner;
use std::alloc::{AllocError, Global};
use sw_base::{Clock, Dialer, Link, StartFault};
use swarm_model::is_name;

fn pairs_of(alloc: Global, words: &Bot) -> Result<Seq<(Text, Text)>, OptionFault>
    ensures pairs { IfOk result (λ pairs. fitting_pairs (options_of words.now).id (options_of words.now).pool (options_of words.now).dimensions ≡ Some pairs) }
    ensures fits { Fits (dimensions_test (options_of words.now) ∷ []) result }
{
    match read_pairs(
        alloc,
        words.id.as_str(),
        words.pool.as_str(),
        words.dimensions.as_str(),
    ) {
        Ok(pairs) => Ok(pairs),
        Err(PairsFault::Memory) => Err(OptionFault::Memory),
        Err(PairsFault::Grammar) => Err(OptionFault::Dimensions),
    }
}

fn named_pairs(alloc: Global, words: &Bot) -> Result<Seq<(Text, Text)>, OptionFault>
    ensures pairs { IfOk result (λ pairs. fitting_pairs (options_of words.now).id (options_of words.now).pool (options_of words.now).dimensions ≡ Some pairs) }
    ensures fits { Fits (name_test (options_of words.now).id ∷ dimensions_test (options_of words.now) ∷ []) result }
{
    if is_name(words.id.as_str()) {
        pairs_of(alloc, words)
    } else {
        Err(OptionFault::Id)
    }
}

/// The address of the server and the pairs of the dimensions, where all options are in their
/// grammars.
fn server_and_pairs(
    alloc: Global,
    words: &Bot,
) -> Result<(ServerAddress, Seq<(Text, Text)>), OptionFault>
    ensures address { IfOk result (λ a. address_of (options_of words.now).server ≡ Some (string_bytes a.0.dial, string_bytes a.0.host)) }
    ensures pairs { IfOk result (λ a. fitting_pairs (options_of words.now).id (options_of words.now).pool (options_of words.now).dimensions ≡ Some a.1) }
    ensures fits { Fits (bot_tests (options_of words.now)) result }
{
    match server_of(alloc, words.server.as_str(), words.caller.as_str()) {
        Ok(address) => match named_pairs(alloc, words) {
            Ok(pairs) => Ok((address, pairs)),
            Err(why) => Err(why),
        },
        Err(why) => Err(why),
    }
}

/// What the bot works with at its start.
fn new_hands(
    alloc: Global,
    words: &Bot,
    server: ServerAddress,
    pairs: Seq<(Text, Text)>,
) -> Result<Hands, AllocError>
    ensures { IfOk result (λ hands. address_of (options_of words.now).server ≡ Some (string_bytes server.dial, string_bytes server.host) →
        fitting_pairs (options_of words.now).id (options_of words.now).pool (options_of words.now).dimensions ≡ Some pairs → IsNewBot (options_of words.now) hands) }
{
    Ok(Hands {
        address: Text::from_string(server.dial),
        host: Text::from_string(server.host),
        caller: Text::from_str(alloc, words.caller.as_str())?,
        id: Text::from_str(alloc, words.id.as_str())?,
        pool: Text::from_str(alloc, words.pool.as_str())?,
        dims: pairs,
        caches: CacheTable::new(alloc, words.caches, words.cache_bytes)?,
        run: None,
        pending: Vec::new(alloc),
        files: Seq::new(alloc),
    })
}

fn limits(words: &Bot) -> BotLimits
    ensures { result ≡ limits_of (options_of words.now) }
{
    BotLimits {
        tasks: words.tasks,
        polls: words.polls,
        steps: words.steps,
    }
}

fn why_word(why: StopWhy) -> &'static str
    ensures { result.now ≡ spec_why_word why }
{
    match why {
        StopWhy::Terminated => "terminated",
        StopWhy::Tasks => "tasks",
        StopWhy::Polls => "polls",
        StopWhy::Steps => "steps",
        StopWhy::Refused => "refused",
    }
}

fn stop_status(why: StopWhy) -> u8
    ensures { result ≡ spec_stop_status why }
{
    match why {
        StopWhy::Terminated | StopWhy::Tasks => 0,
        StopWhy::Polls | StopWhy::Steps => 8,
        StopWhy::Refused => 6,
    }
}

#[tactic(auto, unfolding(crate::specs::BotCommands::stop_line))]
fn stop_line(alloc: Global, stopped: &Stopped) -> Result<String, AllocError>
    ensures { IfOk result (λ line. string_bytes line ≡ spec_stop_line stopped.now) }
{
    let why = why_word(stopped.why);
    let tasks = stopped.tasks;
    format!(in alloc; "bot {why} tasks {tasks}\n")
}

/// Prints why the bot stopped, and after how many tasks.
fn print_stop<L: Link>(alloc: Global, console: &mut L, stopped: &Stopped) -> u8
    ensures { PrintsMade (spec_stop_line stopped.now) (spec_stop_status stopped.now.why) (L.state console.old) (L.state console.new) result }
{
    match stop_line(alloc, stopped) {
        Ok(line) => print(console, line.as_bytes(), stop_status(stopped.why)),
        Err(_) => 5,
    }
}

/// Opens the folder of the bot, and lets the bot act until it stops.
#[tactic(auto, using(crate::proofs::BotEnds::cleaned_behind))]
fn run_hands<L: Link, C: Clock, W: Dialer, R: Runner>(
    alloc: Global,
    limits: BotLimits,
    hands: &mut Hands,
    console: &mut L,
    clock: &mut C,
    dialer: &mut W,
    runner: &mut R,
) -> u8
    ensures { (files : FilesState) (store : StoreState) (listener : ListenerState) (o : BotOptions) → first_unfit (bot_tests o) ≡ None → limits ≡ limits_of o → IsNewBot o hands.old → RunsBotCommand o
        (environment files store (L.state console.old) (C.ahead clock.old) listener (W.state dialer.old) (C.waited clock.old) (R.state runner.old))
        (environment files store (L.state console.new) (C.ahead clock.new) listener (W.state dialer.new) (C.waited clock.new) (R.state runner.new)) result }
{
    match runner.open(&hands.id) {
        Ok(()) => match run_bot(alloc, hands, clock, dialer, runner, limits) {
            Ok(stopped) => print_stop(alloc, console, &stopped),
            Err(_) => 5,
        },
        Err(StartFault::Memory) => 5,
        Err(StartFault::Failed) => 4,
    }
}

/// Runs a bot, and answers the status with which the program ends.
pub fn run_bot_command<L: Link, C: Clock, W: Dialer, R: Runner>(
    alloc: Global,
    words: &Bot,
    console: &mut L,
    clock: &mut C,
    dialer: &mut W,
    runner: &mut R,
) -> u8
    ensures { (files : FilesState) (store : StoreState) (listener : ListenerState) → RunsBotCommand (options_of words.now)
        (environment files store (L.state console.old) (C.ahead clock.old) listener (W.state dialer.old) (C.waited clock.old) (R.state runner.old))
        (environment files store (L.state console.new) (C.ahead clock.new) listener (W.state dialer.new) (C.waited clock.new) (R.state runner.new)) result }
{
    match server_and_pairs(alloc, words) {
        Ok((server, pairs)) => match new_hands(alloc, words, server, pairs) {
            Ok(mut hands) => run_hands(
                alloc,
                limits(words),
                &mut hands,
                console,
                clock,
                dialer,
                runner,
            ),
            Err(_) => 5,
        },
        Err(why) => print_option_fault(alloc, console, why),
    }
}
