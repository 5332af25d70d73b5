//! The bodies of the calls of bots and on bots.
ghost use Rattle.std.specs.Prelude.{◌≡◌, IfOk};
ghost use Rattle.serde_json.specs.View.{view};
ghost use Rattle.json_fields.specs.Readings.{Reads};
ghost use Rattle.bot_bodies.specs.BotCalls.{handshake_in, poll_in, claim_in, event_in, terminate_in, get_bot_in, list_bots_in, FitsNamed, IsBare};

use crate::PoolRequest;
use crate::bot_fields::{check_bot_info, read_bot_info, read_event, read_message};
use crate::names::{read_kept_text, read_name, read_optional_name};
use dimensions::Text;
use json_fields::{read_limit, read_number, read_required_text, read_text};
use serde_json::Value;
use std::alloc::Global;
use swarm_model::Request;
use task_props::PropFault;

/// A bot comes.
#[tactic(auto, using(crate::proofs::Fitting::handshake_fits), unfolding(crate::specs::BotCalls::handshake_in))]
pub fn read_handshake(alloc: Global, body: &Value) -> Result<PoolRequest, PropFault>
    ensures exact { Reads result (handshake_in (view body.now)) }
    ensures fits { IfOk result FitsNamed }
    ensures bare { IfOk result IsBare }
{
    let name = read_required_text(alloc, body, "bot_id")?;
    let text = read_required_text(alloc, body, "session")?;
    let raw = read_bot_info(alloc, body)?;
    let bot = read_name(alloc, "bot_id", name)?;
    let session = read_name(alloc, "session", text)?;
    let info = check_bot_info(alloc, bot.as_str(), raw)?;
    let pool = Text::from_str(alloc, info.dims.pool())?;
    let request = Request::Handshake {
        bot,
        session,
        dims: info.dims,
        quarantined: info.quarantined,
    };
    Ok(PoolRequest { pool, request })
}

/// A bot asks what to do.
#[tactic(auto, using(crate::proofs::Fitting::poll_fits), unfolding(crate::specs::BotCalls::poll_in))]
pub fn read_poll(alloc: Global, body: &Value) -> Result<PoolRequest, PropFault>
    ensures exact { Reads result (poll_in (view body.now)) }
    ensures fits { IfOk result FitsNamed }
    ensures bare { IfOk result IsBare }
{
    let name = read_required_text(alloc, body, "bot_id")?;
    let raw = read_bot_info(alloc, body)?;
    let bot = read_name(alloc, "bot_id", name)?;
    let info = check_bot_info(alloc, bot.as_str(), raw)?;
    let pool = Text::from_str(alloc, info.dims.pool())?;
    let request = Request::Poll {
        bot,
        dims: info.dims,
        quarantined: info.quarantined,
    };
    Ok(PoolRequest { pool, request })
}

/// A bot asks for a task.
#[tactic(auto, using(crate::proofs::Fitting::claim_fits), unfolding(crate::specs::BotCalls::claim_in))]
pub fn read_claim(alloc: Global, body: &Value) -> Result<PoolRequest, PropFault>
    ensures exact { Reads result (claim_in (view body.now)) }
    ensures fits { IfOk result FitsNamed }
    ensures bare { IfOk result IsBare }
{
    let pool = read_kept_text(alloc, body, "pool")?;
    let name = read_required_text(alloc, body, "bot_id")?;
    let text = read_required_text(alloc, body, "claim_id")?;
    let bot = read_name(alloc, "bot_id", name)?;
    let claim = read_name(alloc, "claim_id", text)?;
    let request = Request::Claim { bot, claim };
    Ok(PoolRequest { pool, request })
}

/// A bot tells of itself.
#[tactic(auto, using(crate::proofs::Fitting::event_fits), unfolding(crate::specs::BotCalls::event_in))]
pub fn read_bot_event(alloc: Global, body: &Value) -> Result<PoolRequest, PropFault>
    ensures exact { Reads result (event_in (view body.now)) }
    ensures fits { IfOk result FitsNamed }
    ensures bare { IfOk result IsBare }
{
    let pool = read_kept_text(alloc, body, "pool")?;
    let name = read_required_text(alloc, body, "bot_id")?;
    let event = read_required_text(alloc, body, "event")?;
    let text = read_text(alloc, body, "message")?;
    let bot = read_name(alloc, "bot_id", name)?;
    let kind = read_event(alloc, event)?;
    let message = read_message(alloc, kind, text)?;
    let request = Request::Event { bot, kind, message };
    Ok(PoolRequest { pool, request })
}

/// A bot is to end.
#[tactic(auto, using(crate::proofs::Fitting::terminate_fits), unfolding(crate::specs::BotCalls::terminate_in))]
pub fn read_terminate(alloc: Global, body: &Value) -> Result<PoolRequest, PropFault>
    ensures exact { Reads result (terminate_in (view body.now)) }
    ensures fits { IfOk result FitsNamed }
    ensures bare { IfOk result IsBare }
{
    let pool = read_kept_text(alloc, body, "pool")?;
    let name = read_required_text(alloc, body, "bot_id")?;
    let bot = read_name(alloc, "bot_id", name)?;
    let request = Request::Terminate { bot };
    Ok(PoolRequest { pool, request })
}

/// What is known of a bot.
#[tactic(auto, using(crate::proofs::Fitting::get_bot_fits), unfolding(crate::specs::BotCalls::get_bot_in))]
pub fn read_get_bot(alloc: Global, body: &Value) -> Result<PoolRequest, PropFault>
    ensures exact { Reads result (get_bot_in (view body.now)) }
    ensures fits { IfOk result FitsNamed }
    ensures bare { IfOk result IsBare }
{
    let pool = read_kept_text(alloc, body, "pool")?;
    let name = read_required_text(alloc, body, "bot_id")?;
    let bot = read_name(alloc, "bot_id", name)?;
    let request = Request::Bot { bot };
    Ok(PoolRequest { pool, request })
}

/// A page of the bots of a pool.
#[tactic(auto, using(crate::proofs::Fitting::list_bots_fits), unfolding(crate::specs::BotCalls::list_bots_in))]
pub fn read_list_bots(alloc: Global, body: &Value) -> Result<PoolRequest, PropFault>
    ensures exact { Reads result (list_bots_in (view body.now)) }
    ensures fits { IfOk result FitsNamed }
    ensures bare { IfOk result IsBare }
{
    let pool = read_kept_text(alloc, body, "pool")?;
    let number = read_number(alloc, body, "limit")?;
    let text = read_text(alloc, body, "cursor")?;
    let limit = read_limit(alloc, number)?;
    let after = read_optional_name(alloc, "cursor", text.as_str())?;
    let request = Request::Bots { limit, after };
    Ok(PoolRequest { pool, request })
}
