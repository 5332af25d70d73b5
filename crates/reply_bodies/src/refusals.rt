//! Refusals: the code of each, and what else it tells.
ghost use Rattle.std.specs.Prelude.{◌≡◌, ◌<◌, IfOk, codes};
ghost use Rattle.hex.specs.Hex.{encode_lower};
ghost use Rattle.serde_json.specs.Data.{string};
ghost use Rattle.serde_json.specs.View.{members_view};
ghost use Rattle.json_values.specs.Values.{whole};
ghost use Rattle.swarm_model.specs.declared.rule.Rule.TheVariants.{ClaimOver};
ghost use Rattle.swarm_model.specs.Permissions.{permission_name};
ghost use Rattle.reply_bodies.specs.Refusals.{code_of as spec_code_of, unfit_name as spec_unfit_name, one, two, told_members as spec_told_members, refusal_members as spec_refusal_members};

use crate::items::with_digest;
use crate::views::{with_run_id, with_task_id};
use json_values::{with_text, with_whole};
use refusal_codes::RefusalCode;
use serde_json::{Map, Value};
use std::alloc::{AllocError, Global};
use swarm_model::{Permission, Rule, TaskState, Unfit};
use task_props::Digest;

/// The code of a refusal.
pub fn code_of(why: &Rule) -> RefusalCode
    ensures { result ≡ spec_code_of why.now }
{
    match why {
        Rule::BadHead => RefusalCode::BadHead,
        Rule::LengthRequired => RefusalCode::LengthRequired,
        Rule::TooLarge { .. } => RefusalCode::TooLarge,
        Rule::NoRoute => RefusalCode::NoRoute,
        Rule::BadMethod => RefusalCode::BadMethod,
        Rule::BadJson => RefusalCode::BadJson,
        Rule::BadField { .. } => RefusalCode::BadField,
        Rule::NoCaller => RefusalCode::NoCaller,
        Rule::Denied { .. } => RefusalCode::Denied,
        Rule::NoPool => RefusalCode::NoPool,
        Rule::NoTask => RefusalCode::NoTask,
        Rule::NoBot => RefusalCode::NoBot,
        Rule::UuidReused { .. } => RefusalCode::UuidReused,
        Rule::BotUnfit { .. } => RefusalCode::BotUnfit,
        Rule::BotBusy { .. } => RefusalCode::BotBusy,
        Rule::ClaimOver { .. } => RefusalCode::ClaimOver,
        Rule::NotClaimant { .. } => RefusalCode::NotClaimant,
        Rule::AttemptOver { .. } => RefusalCode::AttemptOver,
        Rule::OutputGap { .. } => RefusalCode::OutputGap,
        Rule::OutputOverlap { .. } => RefusalCode::OutputOverlap,
        Rule::BlobMissing { .. } => RefusalCode::BlobMissing,
        Rule::DigestDiffers { .. } => RefusalCode::DigestDiffers,
        Rule::StoreFull { .. } => RefusalCode::StoreFull,
        Rule::PoolTasksFull { .. } => RefusalCode::PoolTasksFull,
        Rule::PoolBotsFull { .. } => RefusalCode::PoolBotsFull,
        Rule::LogFull => RefusalCode::LogFull,
        Rule::KeeperFault => RefusalCode::KeeperFault,
        Rule::FrontAhead { .. } => RefusalCode::FrontAhead,
        Rule::WantOfMemory => RefusalCode::WantOfMemory,
        Rule::OutputGone { .. } => RefusalCode::OutputGone,
    }
}

fn unfit_name(why: Unfit) -> &'static str
    ensures { result.now ≡ spec_unfit_name why }
{
    match why {
        Unfit::Dead => "dead",
        Unfit::Quarantined => "quarantined",
        Unfit::Terminating => "terminating",
    }
}

/// One member, a text.
pub(crate) fn one_text(
    alloc: Global,
    key: &str,
    text: &str,
) -> Result<Map<String, Value>, AllocError>
    ensures { IfOk result (λ members. members_view members.entries ≡ one key.now (string text.now)) }
{
    with_text(alloc, Map::new(alloc), key, text)
}

/// One member, a whole number.
pub(crate) fn one_whole(
    alloc: Global,
    key: &str,
    number: u64,
) -> Result<Map<String, Value>, AllocError>
    ensures { IfOk result (λ members. members_view members.entries ≡ one key.now (whole number)) }
{
    with_whole(alloc, Map::new(alloc), key, number)
}

/// One member, a digest as a hexadecimal text.
fn one_digest(alloc: Global, key: &str, digest: &Digest) -> Result<Map<String, Value>, AllocError>
    ensures { IfOk result (λ members. members_view members.entries ≡ one key.now (string (encode_lower digest.now))) }
{
    with_digest(alloc, Map::new(alloc), key, digest)
}

fn full_members(alloc: Global, names: u32, size: u32) -> Result<Map<String, Value>, AllocError>
    ensures { IfOk result (λ members. members_view members.entries ≡ two (codes "names") (whole names) (codes "size") (whole size)) }
{
    let members = one_whole(alloc, "size", u64::from(size))?;
    with_whole(alloc, members, "names", u64::from(names))
}

fn field_members(alloc: Global, field: &str, rule: &str) -> Result<Map<String, Value>, AllocError>
    ensures { IfOk result (λ members. members_view members.entries ≡ two (codes "field") (string field.now) (codes "rule") (string rule.now)) }
{
    let members = one_text(alloc, "rule", rule)?;
    with_text(alloc, members, "field", field)
}

fn denied_members(
    alloc: Global,
    permission: Permission,
    pool: &str,
) -> Result<Map<String, Value>, AllocError>
    ensures { IfOk result (λ members. members_view members.entries ≡ two (codes "permission") (string (permission_name permission)) (codes "pool") (string pool.now)) }
{
    let members = one_text(alloc, "pool", pool)?;
    with_text(alloc, members, "permission", permission.name())
}

fn over_members(
    alloc: Global,
    place: u32,
    run: (u32, u32),
    state: TaskState,
) -> Result<Map<String, Value>, AllocError>
    requires { place < 4 }
    ensures { IfOk result (λ members. members_view members.entries ≡ spec_told_members place (ClaimOver run.0 run.1 state)) }
{
    let members = one_text(alloc, "state", state.name())?;
    with_run_id(alloc, members, "run", place, run)
}

/// What a refusal of the pool at a place tells beside its code.
fn told_members(alloc: Global, place: u32, why: &Rule) -> Result<Map<String, Value>, AllocError>
    requires { place < 4 }
    ensures { IfOk result (λ members. members_view members.entries ≡ spec_told_members place why.now) }
{
    match why {
        Rule::TooLarge { limit } | Rule::PoolTasksFull { limit } | Rule::PoolBotsFull { limit } =>
            one_whole(alloc, "limit", u64::from(*limit)),
        Rule::BadField { field, rule } => field_members(alloc, field.as_str(), rule.name()),
        Rule::Denied { permission, pool } => denied_members(alloc, *permission, pool.as_str()),
        Rule::UuidReused { task } => with_task_id(alloc, Map::new(alloc), "task", place, *task),
        Rule::BotUnfit { why } => one_text(alloc, "why", unfit_name(*why)),
        Rule::BotBusy { task, try_no } => {
            with_run_id(alloc, Map::new(alloc), "run", place, (*task, *try_no))
        }
        Rule::ClaimOver {
            task,
            try_no,
            state,
        } => over_members(alloc, place, (*task, *try_no), *state),
        Rule::NotClaimant { bot } => one_text(alloc, "bot", bot.as_str()),
        Rule::AttemptOver { state } => one_text(alloc, "state", state.name()),
        Rule::FrontAhead { length } => one_whole(alloc, "length", *length),
        Rule::OutputGap { length } => one_whole(alloc, "length", u64::from(*length)),
        Rule::OutputOverlap { start } => one_whole(alloc, "start", u64::from(*start)),
        Rule::BlobMissing { digest } | Rule::OutputGone { digest } => {
            one_digest(alloc, "digest", digest)
        }
        Rule::DigestDiffers { actual } => one_digest(alloc, "actual", actual),
        Rule::StoreFull { names, size } => full_members(alloc, *names, *size),
        Rule::BadHead
        | Rule::LengthRequired
        | Rule::NoRoute
        | Rule::BadMethod
        | Rule::BadJson
        | Rule::NoCaller
        | Rule::NoPool
        | Rule::NoTask
        | Rule::NoBot
        | Rule::LogFull
        | Rule::KeeperFault
        | Rule::WantOfMemory => Ok(Map::new(alloc)),
    }
}

/// The members of a refusal of the pool at a place.
pub(crate) fn refusal_members(
    alloc: Global,
    place: u32,
    why: &Rule,
) -> Result<Map<String, Value>, AllocError>
    requires { place < 4 }
    ensures { IfOk result (λ members. members_view members.entries ≡ spec_refusal_members place why.now) }
{
    let members = told_members(alloc, place, why)?;
    with_text(alloc, members, "code", code_of(why).name())
}
