//! The world with which turns begin: a bot that has begun, and a pool without entries.
ghost use Rattle.std.specs.Prelude.{◌≡◌, IfOk, IfSome, IsTrue};
ghost use Rattle.swarm_model.specs.Fits.{fits_bot as spec_fits_bot};
ghost use Rattle.swarm_model.specs.Settings.{are_settings, keeps_rules};

use bot_core::BotLimits;
use dimensions::{BotDims, Seq, Text, TryCopy};
use std::alloc::{AllocError, Global};
use swarm_model::{Machine, PoolSettings, Settings, is_name};
use swarm_policy::{SettingsFault, read_settings};
use two_ends::World;

/// The name of the bot.
const BOT: &str = "bot-1";

/// The name of the pool.
const POOL: &str = "default";

/// A bot and its pool, with the settings of the pool.
#[derive(Drop)]
pub(crate) struct Opened<M: Machine + Drop> {
    pub settings: Settings,
    pub world: World<M>,
}

fn texts(alloc: Global, text: &str) -> Result<Seq<Text>, AllocError> {
    Ok(Seq::from_vec(vec![in alloc; Text::from_str(alloc, text)?]?))
}

/// A bot that has nothing but its name and its pool.
fn bot_dims(alloc: Global) -> Result<BotDims, AllocError> {
    let id = (Text::from_str(alloc, "id")?, texts(alloc, BOT)?);
    let pool = (Text::from_str(alloc, "pool")?, texts(alloc, POOL)?);
    let pairs = Seq::from_vec(vec![in alloc; id, pool]?);
    // (the pairs break no rule, so only memory can be missing)
    BotDims::read(alloc, BOT, pairs).map_err(|_| AllocError)
}

/// The settings that lines of TOML say of the pool, where they keep their rules.
fn settings_of(alloc: Global, lines: &str) -> Result<Option<Settings>, AllocError>
    ensures { IfOk result (λ found. IfSome found (λ settings. IsTrue (are_settings settings))) }
{
    let text = format!(in alloc; "[[pools]]\nname = \"{POOL}\"\n{lines}\n")?;
    match read_settings(alloc, text.as_bytes()) {
        Ok(settings) => Ok(Some(settings)),
        Err(SettingsFault::Memory) => Err(AllocError),
        Err(SettingsFault::Broken { .. }) => Ok(None),
    }
}

/// The first pool of settings.
#[tactic(auto, using(crate::proofs::NewMachines::first_rules))]
fn first_pool(alloc: Global, settings: &Settings) -> Result<Option<PoolSettings>, AllocError>
    requires { IsTrue (are_settings settings.now) }
    ensures { IfOk result (λ found. IfSome found (λ pool. IsTrue (keeps_rules pool))) }
{
    match settings.pools.as_slice() {
        [] => Ok(None),
        [pool, ..] => Ok(Some(pool.try_copy(alloc)?)),
    }
}

/// Whether a bot of this name, with what it has, may come to the pool.
fn fits_bot(settings: &PoolSettings, name: &Text, dims: &BotDims) -> bool
    ensures { result ≡ spec_fits_bot settings.now name.now dims.now }
{
    is_name(name.as_str())
        && dims.is_checked(name.as_str())
        && dims.pool() == settings.name.as_str()
}

/// A bot that begins at the moment, over a pool of these settings without entries, where the bot fits the
/// pool.
#[tactic(auto, using(crate::proofs::NewMachines::new_filled, crate::proofs::NewMachines::new_unknown, crate::proofs::NewMachines::new_fits))]
fn new_world<M: Machine + Drop>(
    alloc: Global,
    settings: PoolSettings,
    limits: BotLimits,
    moment: u64,
) -> Result<Option<World<M>>, AllocError>
    requires { IsTrue (keeps_rules settings) }
{
    let name = Text::from_str(alloc, BOT)?;
    let dims = bot_dims(alloc)?;
    if !fits_bot(&settings, &name, &dims) {
        return Ok(None);
    }
    let machine = M::new(alloc, settings)?;
    let world = World::new(alloc, machine, limits, name, dims, moment)?;
    Ok(Some(world))
}

/// A world whose bot begins at the moment, and whose pool has the settings that lines of TOML say. There
/// is none where they break a rule.
pub(crate) fn open<M: Machine + Drop>(
    alloc: Global,
    lines: &str,
    limits: BotLimits,
    moment: u64,
) -> Result<Option<Opened<M>>, AllocError> {
    let Some(settings) = settings_of(alloc, lines)? else {
        return Ok(None);
    };
    let Some(pool) = first_pool(alloc, &settings)? else {
        return Ok(None);
    };
    match new_world(alloc, pool, limits, moment)? {
        Some(world) => Ok(Some(Opened { settings, world })),
        None => Ok(None),
    }
}
