//! What the replies of the calls on bots tell.
ghost use Rattle.std.specs.Prelude.{◌≡◌, []};
ghost use Rattle.serde_json.specs.View.{view};
ghost use Rattle.json_fields.specs.Readings.{GivesUnlessMemory, Reads};
ghost use Rattle.server_calls.specs.Members.{with_keys};
ghost use Rattle.server_calls.specs.Bots.{bot_pair_in, checked_bot, bot_id_in, quarantined_in, dimensions_in, last_seen_in, bot_run_in, bot_place_in, bot_flags_in, bot_view_in, bot_in, shaken_in, terminating_in, noted_in, updated_in};

use crate::Told;
use crate::ids::RunId;
use crate::members::{check_keys, read_flag, read_kept_text, read_number};
use crate::places::{number_of_run, place_of_run, read_place, read_run_or_none};
use dimensions::{BotDims, Seq, Text};
use json_fields::{ReadFields, read_objects, read_texts};
use serde_json::Value;
use std::alloc::Global;
use swarm_model::{BotView, Reply};
use task_props::PropFault;

/// The keys of a bot.
const BOT_KEYS: [&str; 7] = [
    "bot_id",
    "dimensions",
    "is_dead",
    "last_seen_ts",
    "quarantined",
    "task_id",
    "terminating",
];

/// Keys, each with its values.
struct BotPairs;

impl ReadFields for BotPairs {
    type Value = (Text, Seq<Text>);

    ghost fields = { bot_pair_in };

    #[tactic(auto, unfolding(crate::specs::Bots::bot_pair_in))]
    fn read_fields(alloc: Global, pair: &Value) -> Result<(Text, Seq<Text>), PropFault> {
        check_keys(alloc, pair, &["key", "value"])?;
        let key = read_kept_text(alloc, pair, "key")?;
        let values = read_texts(alloc, pair, "value")?;
        Ok((key, values))
    }
}

/// The place that the run of a bot names, where it has one.
#[tactic(auto, unfolding(crate::specs::Bots::bot_place_in))]
pub(crate) fn read_bot_place(alloc: Global, bot: &Value) -> Result<Option<u32>, PropFault>
    ensures { Reads result (bot_place_in (view bot.now)) }
{
    let run = read_bot_run(alloc, bot)?;
    Ok(place_of_run(run))
}

#[tactic(auto, unfolding(crate::specs::Bots::checked_bot))]
fn check_bot_keys(alloc: Global, bot: &Value) -> Result<&Value, PropFault>
    ensures { GivesUnlessMemory (λ v. view v.now) result (checked_bot (view bot.now)) }
{
    check_keys(alloc, bot, &BOT_KEYS)
}

#[tactic(auto, unfolding(crate::specs::Bots::bot_id_in))]
fn read_bot_id(alloc: Global, bot: &Value) -> Result<Text, PropFault>
    ensures { Reads result (bot_id_in (view bot.now)) }
{
    read_kept_text(alloc, bot, "bot_id")
}

#[tactic(auto, unfolding(crate::specs::Bots::quarantined_in))]
fn read_quarantined(alloc: Global, bot: &Value) -> Result<Text, PropFault>
    ensures { Reads result (quarantined_in (view bot.now)) }
{
    read_kept_text(alloc, bot, "quarantined")
}

#[tactic(auto, unfolding(crate::specs::Bots::last_seen_in))]
fn read_last_seen(alloc: Global, bot: &Value) -> Result<u64, PropFault>
    ensures { Reads result (last_seen_in (view bot.now)) }
{
    read_number(alloc, bot, "last_seen_ts", 18_446_744_073_709_551_615)
}

#[tactic(auto, unfolding(crate::specs::Bots::bot_run_in))]
fn read_bot_run(alloc: Global, bot: &Value) -> Result<Option<RunId>, PropFault>
    ensures { Reads result (bot_run_in (view bot.now)) }
{
    read_run_or_none(alloc, bot, "task_id")
}

#[tactic(auto, unfolding(crate::specs::Bots::dimensions_in))]
fn read_dimensions(alloc: Global, bot: &Value) -> Result<Seq<(Text, Seq<Text>)>, PropFault>
    ensures { Reads result (dimensions_in (view bot.now)) }
{
    read_objects::<BotPairs>(alloc, bot, "dimensions")
}

#[tactic(auto, unfolding(crate::specs::Bots::bot_flags_in))]
fn read_bot_flags(alloc: Global, bot: &Value) -> Result<(bool, bool), PropFault>
    ensures { Reads result (bot_flags_in (view bot.now)) }
{
    let is_dead = read_flag(alloc, bot, "is_dead")?;
    let terminating = read_flag(alloc, bot, "terminating")?;
    Ok((is_dead, terminating))
}

/// A bot as it is shown.
#[tactic(auto, unfolding(crate::specs::Bots::bot_view_in))]
pub(crate) fn read_bot_view(alloc: Global, bot: &Value) -> Result<BotView, PropFault>
    ensures { Reads result (bot_view_in (view bot.now)) }
{
    check_bot_keys(alloc, bot)?;
    let bot_id = read_bot_id(alloc, bot)?;
    let pairs = read_dimensions(alloc, bot)?;
    let (is_dead, terminating) = read_bot_flags(alloc, bot)?;
    let last_seen_ts = read_last_seen(alloc, bot)?;
    let quarantined = read_quarantined(alloc, bot)?;
    let run = read_bot_run(alloc, bot)?;
    Ok(BotView {
        bot_id,
        dimensions: BotDims::from_pairs(pairs),
        is_dead,
        last_seen_ts,
        quarantined,
        task_id: number_of_run(run),
        terminating,
    })
}

/// A bot.
#[tactic(auto, unfolding(crate::specs::Bots::bot_in))]
pub(crate) fn read_bot(alloc: Global, body: &Value) -> Result<Told, PropFault>
    ensures { Reads result (bot_in (view body.now)) }
{
    let named = read_bot_place(alloc, body)?;
    let place = read_place(alloc, &[named])?;
    let bot = read_bot_view(alloc, body)?;
    Ok(Told::Good {
        place,
        reply: Reply::Bot(bot),
        bytes: Seq::new(alloc),
    })
}

/// The pool knows the bot.
#[tactic(auto, unfolding(crate::specs::Bots::shaken_in))]
pub(crate) fn read_shaken(alloc: Global, body: &Value) -> Result<Told, PropFault>
    ensures { Reads result (shaken_in (view body.now)) }
{
    check_keys(alloc, body, &["bot_id"])?;
    let bot = read_kept_text(alloc, body, "bot_id")?;
    Ok(Told::Good {
        place: 0,
        reply: Reply::Shaken { bot },
        bytes: Seq::new(alloc),
    })
}

fn check_no_keys(alloc: Global, body: &Value) -> Result<&Value, PropFault>
    ensures { GivesUnlessMemory (λ v. view v.now) result (with_keys [] (view body.now)) }
{
    check_keys(alloc, body, &[])
}

/// The bot will be told to end.
#[tactic(auto, unfolding(crate::specs::Bots::terminating_in))]
pub(crate) fn read_terminating(alloc: Global, body: &Value) -> Result<Told, PropFault>
    ensures { Reads result (terminating_in (view body.now)) }
{
    check_no_keys(alloc, body)?;
    Ok(Told::Good {
        place: 0,
        reply: Reply::Terminating,
        bytes: Seq::new(alloc),
    })
}

/// The event is noted.
#[tactic(auto, unfolding(crate::specs::Bots::noted_in))]
pub(crate) fn read_noted(alloc: Global, body: &Value) -> Result<Told, PropFault>
    ensures { Reads result (noted_in (view body.now)) }
{
    check_no_keys(alloc, body)?;
    Ok(Told::Good {
        place: 0,
        reply: Reply::Noted,
        bytes: Seq::new(alloc),
    })
}

/// Whether the run is to stop.
#[tactic(auto, unfolding(crate::specs::Bots::updated_in))]
pub(crate) fn read_updated(alloc: Global, body: &Value) -> Result<Told, PropFault>
    ensures { Reads result (updated_in (view body.now)) }
{
    check_keys(alloc, body, &["must_stop"])?;
    let must_stop = read_flag(alloc, body, "must_stop")?;
    Ok(Told::Good {
        place: 0,
        reply: Reply::Updated { must_stop },
        bytes: Seq::new(alloc),
    })
}
