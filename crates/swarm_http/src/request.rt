//! Taking the next request from a link.
ghost use Rattle.std.specs.Prelude.{◌≡◌, ◌≤◌, ℕ, List, length, take, IfOk, IfSome, option_map};
ghost use Rattle.httparse.specs.Grammar.{RequestHead};
ghost use Rattle.sw_base.specs.Link.{IsClean};
ghost use Rattle.link_reader.specs.Heads.{IsHeadEnd};
ghost use Rattle.request_head.specs.declared.head_refusal.HeadRefusal.TheVariants as cause;
ghost use Rattle.request_head.specs.HeadFields.{size_of};
ghost use Rattle.request_head.specs.HeadChecks.{IsHeadOf};
ghost use Rattle.swarm_model.specs.declared.rule.Rule.TheVariants as Rule;
ghost use Rattle.routes.specs.Routes.{pool_part, digest_part};
ghost use Rattle.swarm_http.specs.Requests.{parts_of};
ghost use Rattle.swarm_http.specs.Endings.{head_rule};
ghost use Rattle.swarm_http.specs.Sends.{rule_of};
ghost use Rattle.swarm_http.specs.Served.{HeadSays};
ghost use Rattle.swarm_http.specs.Takes.{IsCaller, IsRequestLine, IsLimit, Takes};

use crate::Ended;
use crate::reply::Refusal;
use dimensions::Text;
use link_reader::{BodyEnd, HeadEnd, Pending, read_body, read_head};
use request_head::{After, Head, HeadCheck, HeadRefusal, Method, check_head};
use routes::{Found, Resource, Routes};
use std::alloc::{AllocError, Global};
use sw_base::Link;
use swarm_wire::Parts;

/// The caller of a request.
#[derive(Drop)]
pub enum Caller {
    /// The head names none, or not just one.
    Unnamed,
    Named(Text),
    /// There was no memory to hold it.
    NoMemory,
}

/// What a head says that its request's answer needs.
#[derive(Drop)]
pub struct RequestLine {
    pub resource: Option<Resource>,
    /// What the target names, where there was memory to hold it.
    pub parts: Option<Parts>,
    pub method: Method,
    pub who: Caller,
    pub after: After,
    pub closes: bool,
}

/// A request, its body as far as there was memory to hold it.
#[derive(Drop)]
pub struct Received {
    pub line: RequestLine,
    pub body: Option<Vec<u8>>,
}

/// What came of taking a request.
#[derive(Drop)]
pub enum Incoming {
    Asks(Received),
    /// Its head is refused. What is no head has no method.
    Refuses {
        method: Option<Method>,
        why: Refusal,
    },
    Ends(Ended),
}

fn owned_caller(alloc: Global, caller: Option<&str>) -> Caller
    ensures { IsCaller result (option_map (λ c. c.now) caller.entry) }
{
    match caller {
        None => Caller::Unnamed,
        Some(who) => match Text::from_str(alloc, who) {
            Ok(text) => Caller::Named(text),
            Err(_) => Caller::NoMemory,
        },
    }
}

fn owned_resource(found: Option<Found>) -> Option<Resource>
    ensures { result ≡ option_map (λ f. f.resource) found.entry }
{
    Some(found?.resource)
}

fn new_parts(alloc: Global, pool: &str, digest: &str) -> Result<Parts, AllocError>
    ensures { IfOk result (λ parts. parts ≡ record { pool = pool.now; digest = digest.now }) }
{
    Ok(Parts {
        pool: Text::from_str(alloc, pool)?,
        digest: Text::from_str(alloc, digest)?,
    })
}

/// What the target names at which this was found.
fn owned_parts(alloc: Global, found: Option<Found>) -> Option<Parts>
    ensures { (target : List ℕ) → IfSome found.entry (λ f. f.pool.now ≡ pool_part target) → IfSome found.entry (λ f. f.digest.now ≡ digest_part target) → IfSome result (λ parts. parts ≡ parts_of target) }
{
    let found = found?;
    new_parts(alloc, found.pool, found.digest).ok()
}

fn request_line_of(alloc: Global, routes: &Routes, head: &Head) -> RequestLine
    ensures { (h : RequestHead) → IsHeadOf h head.now → IsRequestLine result h }
{
    let found = routes.find(head.target);
    RequestLine {
        resource: owned_resource(found),
        parts: owned_parts(alloc, found),
        method: head.method,
        who: owned_caller(alloc, head.caller),
        after: head.after,
        closes: head.closes,
    }
}

/// Takes the body behind a head of n bytes.
fn take_body<L: Link>(
    alloc: Global,
    n: usize,
    size: u32,
    line: RequestLine,
    pending: &mut Pending,
    link: &mut L,
) -> Incoming
    requires within { n ≤ length pending.old }
    requires says { (h : RequestHead) × HeadSays (take n pending.old) h × (size ≡ size_of h) × IsRequestLine line h }
    requires clean { IsClean (L.state link.old) }
    ensures { Takes (L.state link.old) (L.state link.new) pending.old pending.new result }
{
    match read_body(alloc, pending, n, size as usize, link) {
        Ok(BodyEnd::Whole(body)) => Incoming::Asks(Received {
            line,
            body: Some(body),
        }),
        Ok(BodyEnd::Dropped) => Incoming::Asks(Received { line, body: None }),
        Ok(BodyEnd::Ended) => Incoming::Ends(Ended::CutShort),
        Err(_) => Incoming::Ends(Ended::ReadFault),
    }
}

fn too_large(limit: u32) -> Refusal
    requires { IsLimit limit }
    ensures { rule_of result ≡ Rule.TooLarge limit }
{
    if limit == 65536 {
        Refusal::BodyTooLarge
    } else {
        Refusal::BlobTooLarge
    }
}

fn refusal_of(why: HeadRefusal) -> Refusal
    requires { (limit : ℕ) → why ≡ cause.TooLarge limit → IsLimit limit }
    ensures { rule_of result ≡ head_rule why }
{
    match why {
        HeadRefusal::Bad => Refusal::BadHead,
        HeadRefusal::LengthRequired => Refusal::LengthRequired,
        HeadRefusal::TooLarge { limit } => too_large(limit),
    }
}

/// Takes the request whose head is the first n bytes that are pending.
fn take_head<L: Link>(
    alloc: Global,
    routes: &Routes,
    n: usize,
    pending: &mut Pending,
    link: &mut L,
) -> Incoming
    requires end { IsHeadEnd pending.old n }
    requires short { length pending.old ≤ 16384 }
    requires clean { IsClean (L.state link.old) }
    ensures { Takes (L.state link.old) (L.state link.new) pending.old pending.new result }
{
    match check_head(pending.front(n)) {
        HeadCheck::NoHead => Incoming::Refuses {
            method: None,
            why: Refusal::BadHead,
        },
        HeadCheck::Refused { method, why } => Incoming::Refuses {
            method: Some(method),
            why: refusal_of(why),
        },
        HeadCheck::Good(head) => {
            let line = request_line_of(alloc, routes, &head);
            take_body(alloc, n, head.size, line, pending, link)
        }
    }
}

/// Takes the next request.
pub fn take_request<L: Link>(
    alloc: Global,
    routes: &Routes,
    pending: &mut Pending,
    link: &mut L,
) -> Incoming
    requires { IsClean (L.state link.old) }
    ensures { Takes (L.state link.old) (L.state link.new) pending.old pending.new result }
{
    match read_head(pending, link) {
        Ok(HeadEnd::At(n)) => take_head(alloc, routes, n, pending, link),
        Ok(HeadEnd::TooLong) => Incoming::Refuses {
            method: None,
            why: Refusal::BadHead,
        },
        Ok(HeadEnd::Ended) => {
            if pending.is_empty() {
                Incoming::Ends(Ended::Closed)
            } else {
                Incoming::Ends(Ended::CutShort)
            }
        }
        Err(_) => Incoming::Ends(Ended::ReadFault),
    }
}
