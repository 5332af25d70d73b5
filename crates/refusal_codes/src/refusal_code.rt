/// Why a request was refused. The order is that of the numbers.
#[derive(Clone, Copy, Debug, PartialEq, Eq)]
pub enum RefusalCode {
    BadHead,
    LengthRequired,
    TooLarge,
    NoRoute,
    BadMethod,
    BadJson,
    BadField,
    NoCaller,
    Denied,
    NoPool,
    NoTask,
    NoBot,
    UuidReused,
    BotUnfit,
    BotBusy,
    ClaimOver,
    NotClaimant,
    AttemptOver,
    OutputGap,
    OutputOverlap,
    BlobMissing,
    DigestDiffers,
    StoreFull,
    PoolTasksFull,
    PoolBotsFull,
    LogFull,
    FrontAhead,
    KeeperFault,
    WantOfMemory,
    OutputGone,
}

/// All codes, in the order of their numbers.
const CODES: [RefusalCode; 30] = [
    RefusalCode::BadHead,
    RefusalCode::LengthRequired,
    RefusalCode::TooLarge,
    RefusalCode::NoRoute,
    RefusalCode::BadMethod,
    RefusalCode::BadJson,
    RefusalCode::BadField,
    RefusalCode::NoCaller,
    RefusalCode::Denied,
    RefusalCode::NoPool,
    RefusalCode::NoTask,
    RefusalCode::NoBot,
    RefusalCode::UuidReused,
    RefusalCode::BotUnfit,
    RefusalCode::BotBusy,
    RefusalCode::ClaimOver,
    RefusalCode::NotClaimant,
    RefusalCode::AttemptOver,
    RefusalCode::OutputGap,
    RefusalCode::OutputOverlap,
    RefusalCode::BlobMissing,
    RefusalCode::DigestDiffers,
    RefusalCode::StoreFull,
    RefusalCode::PoolTasksFull,
    RefusalCode::PoolBotsFull,
    RefusalCode::LogFull,
    RefusalCode::FrontAhead,
    RefusalCode::KeeperFault,
    RefusalCode::WantOfMemory,
    RefusalCode::OutputGone,
];

impl RefusalCode {
    ghost use Rattle.std.specs.Prelude.{◌≡◌, ◌≤◌, ◌<◌};
    ghost use Rattle.refusal_codes.specs.Codes.{code_row, code_name, code_number, code_status, code_named, code_numbered, is_transient_code};

    /// The number, the status and the name.
    fn row(self) -> (u32, u16, &'static str)
        ensures number { result.0 ≡ code_number self }
        ensures status { result.1 ≡ code_status self }
        ensures is_error { (400 ≤ result.1) × (result.1 < 600) }
        ensures name { result.2.now ≡ code_name self }
    {
        match self {
            RefusalCode::BadHead => (1, 400, "bad_head"),
            RefusalCode::LengthRequired => (2, 411, "length_required"),
            RefusalCode::TooLarge => (3, 413, "too_large"),
            RefusalCode::NoRoute => (4, 404, "no_route"),
            RefusalCode::BadMethod => (5, 405, "bad_method"),
            RefusalCode::BadJson => (6, 400, "bad_json"),
            RefusalCode::BadField => (7, 400, "bad_field"),
            RefusalCode::NoCaller => (8, 401, "no_caller"),
            RefusalCode::Denied => (9, 403, "denied"),
            RefusalCode::NoPool => (10, 404, "no_pool"),
            RefusalCode::NoTask => (11, 404, "no_task"),
            RefusalCode::NoBot => (12, 404, "no_bot"),
            RefusalCode::UuidReused => (13, 409, "uuid_reused"),
            RefusalCode::BotUnfit => (14, 409, "bot_unfit"),
            RefusalCode::BotBusy => (15, 409, "bot_busy"),
            RefusalCode::ClaimOver => (16, 409, "claim_over"),
            RefusalCode::NotClaimant => (17, 403, "not_claimant"),
            RefusalCode::AttemptOver => (18, 409, "attempt_over"),
            RefusalCode::OutputGap => (19, 409, "output_gap"),
            RefusalCode::OutputOverlap => (20, 409, "output_overlap"),
            RefusalCode::BlobMissing => (21, 409, "blob_missing"),
            RefusalCode::DigestDiffers => (22, 400, "digest_differs"),
            RefusalCode::StoreFull => (23, 507, "store_full"),
            RefusalCode::PoolTasksFull => (24, 503, "pool_tasks_full"),
            RefusalCode::PoolBotsFull => (25, 503, "pool_bots_full"),
            RefusalCode::LogFull => (26, 503, "log_full"),
            RefusalCode::FrontAhead => (27, 409, "front_ahead"),
            RefusalCode::KeeperFault => (28, 503, "keeper_fault"),
            RefusalCode::WantOfMemory => (29, 503, "want_of_memory"),
            RefusalCode::OutputGone => (30, 410, "output_gone"),
        }
    }

    /// The name, which stands in the body of a reply.
    pub fn name(self) -> &'static str
        ensures { result.now ≡ code_name self }
    {
        self.row().2
    }

    /// The number, from 1 to 30.
    pub fn number(self) -> u32
        ensures { result ≡ code_number self }
    {
        self.row().0
    }

    /// The status of its replies (RFC 9110, section 15).
    pub fn status(self) -> u16
        ensures status { result ≡ code_status self }
        ensures least { 400 ≤ result }
        ensures most { result < 600 }
    {
        self.row().1
    }

    /// The pool could not act now: the same request may be sent again.
    pub fn is_transient(self) -> bool
        ensures { result ≡ is_transient_code self }
    {
        matches!(
            self,
            RefusalCode::LogFull | RefusalCode::KeeperFault | RefusalCode::WantOfMemory
        )
    }

    /// The code that has the name.
    #[tactic(auto, unfolding(crate::specs::Codes::code_named))]
    pub fn from_name(name: &str) -> Option<RefusalCode>
        ensures { result ≡ code_named name.now }
    {
        CODES.iter().copied().find(|code| code.name() == name)
    }

    /// The code that has the number.
    #[tactic(auto, unfolding(crate::specs::Codes::code_numbered))]
    pub fn from_number(number: u32) -> Option<RefusalCode>
        ensures { result ≡ code_numbered number }
    {
        CODES.iter().copied().find(|code| code.number() == number)
    }
}
