use bot_core::StopWhy;

/// Why a bot stopped, and after how many tasks.
#[derive(Clone, Copy, Debug, PartialEq, Eq)]
pub struct Stopped {
    pub why: StopWhy,
    pub tasks: u32,
}
